// A letter that is no case's.
ghost use Rattle.std.specs.Prelude.{Some};
ghost use Rattle.inspection.specs.Letters.{told};

use std::error::Error;
use std::fmt;

#[derive(Clone, Copy, PartialEq, Eq, Debug)]
pub struct UnknownLetter {
    pub letter: char,
}

impl fmt::Display for UnknownLetter {
    ghost output = { λ e. Some (told e) };

    fn fmt<W: fmt::Write>(&self, f: &mut fmt::Formatter<W>) -> fmt::Result {
        write!(f, "no case has the letter {}", self.letter)
    }
}

impl Error for UnknownLetter {}
