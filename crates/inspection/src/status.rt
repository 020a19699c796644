// How closely a line is inspected at present.
ghost use Rattle.std.specs.Prelude.{◌≡◌, Some};
ghost use Rattle.inspection.specs.Statuses.{status_name};
ghost use Rattle.inspection.specs.Letters.{status_letter, status_of, LetterRead};

use crate::letter::UnknownLetter;
use std::fmt;

// In the order in which a plan has them.
#[derive(Clone, Copy, PartialEq, Eq, PartialOrd, Ord, Debug)]
pub enum Status {
    Normal,
    Tightened,
    Reduced,
}

impl Status {
    pub const ALL: [Status; 3] = [Status::Normal, Status::Tightened, Status::Reduced];
}

impl From<Status> for char {
    ghost from_gives = { λ x c. c ≡ status_letter x };

    fn from(status: Status) -> char {
        match status {
            Status::Normal => 'N',
            Status::Tightened => 'T',
            Status::Reduced => 'R',
        }
    }
}

// The status whose letter it is; no other letter has one.
impl TryFrom<char> for Status {
    type Error = UnknownLetter;

    ghost try_from_gives = { LetterRead status_letter status_of };

    fn try_from(letter: char) -> Result<Status, UnknownLetter> {
        match letter {
            'N' => Ok(Status::Normal),
            'T' => Ok(Status::Tightened),
            'R' => Ok(Status::Reduced),
            _ => Err(UnknownLetter { letter }),
        }
    }
}

// Its name, as people read it.
impl fmt::Display for Status {
    ghost output = { λ s. Some (status_name s) };

    fn fmt<W: fmt::Write>(&self, f: &mut fmt::Formatter<W>) -> fmt::Result {
        f.write_str(match self {
            Status::Normal => "normal",
            Status::Tightened => "tightened",
            Status::Reduced => "reduced",
        })
    }
}
