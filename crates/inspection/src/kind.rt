// What an entry of the book tells of.
ghost use Rattle.std.specs.Prelude.{◌≡◌};
ghost use Rattle.inspection.specs.Letters.{kind_letter, kind_of, LetterRead};

use crate::letter::UnknownLetter;

#[derive(Clone, Copy, PartialEq, Eq, Debug)]
pub enum Kind {
    PeriodOpened,
    Portion,
    PeriodEnded,
    Lot,
    SecondSample,
    Relief,
    IrregularNotice,
    // What stands in the book is no entry.
    Spoiled,
}

impl From<Kind> for char {
    ghost from_gives = { λ x c. c ≡ kind_letter x };

    fn from(kind: Kind) -> char {
        match kind {
            Kind::PeriodOpened => 'O',
            Kind::Portion => 'P',
            Kind::PeriodEnded => 'E',
            Kind::Lot => 'L',
            Kind::SecondSample => 'S',
            Kind::Relief => 'G',
            Kind::IrregularNotice => 'I',
            Kind::Spoiled => 'X',
        }
    }
}

// The kind whose letter it is; no other letter has one.
impl TryFrom<char> for Kind {
    type Error = UnknownLetter;

    ghost try_from_gives = { LetterRead kind_letter kind_of };

    fn try_from(letter: char) -> Result<Kind, UnknownLetter> {
        match letter {
            'O' => Ok(Kind::PeriodOpened),
            'P' => Ok(Kind::Portion),
            'E' => Ok(Kind::PeriodEnded),
            'L' => Ok(Kind::Lot),
            'S' => Ok(Kind::SecondSample),
            'G' => Ok(Kind::Relief),
            'I' => Ok(Kind::IrregularNotice),
            'X' => Ok(Kind::Spoiled),
            _ => Err(UnknownLetter { letter }),
        }
    }
}
