// What a call answers of a portion, a lot or a period.
ghost use Rattle.std.specs.Prelude.{◌≡◌};
ghost use Rattle.inspection.specs.Letters.{verdict_letter, verdict_of, LetterRead};

use crate::letter::UnknownLetter;

#[derive(Clone, Copy, PartialEq, Eq, Debug)]
pub enum Verdict {
    Accepted,
    Rejected,
    // The lot wants its second sample.
    Awaited,
    // The period ended with six portions or more.
    Full,
    // The period ended with fewer.
    Brief,
    // The call decides nothing.
    Undecided,
}

impl From<Verdict> for char {
    ghost from_gives = { λ x c. c ≡ verdict_letter x };

    fn from(verdict: Verdict) -> char {
        match verdict {
            Verdict::Accepted => 'A',
            Verdict::Rejected => 'R',
            Verdict::Awaited => 'W',
            Verdict::Full => 'F',
            Verdict::Brief => 'B',
            Verdict::Undecided => '-',
        }
    }
}

// The verdict whose letter it is; no other letter has one.
impl TryFrom<char> for Verdict {
    type Error = UnknownLetter;

    ghost try_from_gives = { LetterRead verdict_letter verdict_of };

    fn try_from(letter: char) -> Result<Verdict, UnknownLetter> {
        match letter {
            'A' => Ok(Verdict::Accepted),
            'R' => Ok(Verdict::Rejected),
            'W' => Ok(Verdict::Awaited),
            'F' => Ok(Verdict::Full),
            'B' => Ok(Verdict::Brief),
            '-' => Ok(Verdict::Undecided),
            _ => Err(UnknownLetter { letter }),
        }
    }
}
