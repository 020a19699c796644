// How serious a defect is, and the counts of defects that are judged.
ghost use Rattle.std.specs.Prelude.{◌≡◌, ◌*◌, ◌^◌, ◌<◌};
ghost use Rattle.inspection.specs.Letters.{class_letter, class_of, LetterRead};
ghost use Rattle.inspection.specs.Classes.{count_of, at_class};
ghost use Rattle.inspection.specs.Tallies.{worse};

use crate::letter::UnknownLetter;
use crate::tally::Tally;

// The most serious first.
#[derive(Clone, Copy, PartialEq, Eq, PartialOrd, Ord, Debug)]
pub enum DefectClass {
    Critical,
    Major,
    Minor,
}

impl DefectClass {
    // The more serious of two.
    pub fn or_worse(self, other: DefectClass) -> DefectClass
        ensures { result ≡ worse self other }
    {
        self.min(other)
    }
}

impl From<DefectClass> for char {
    ghost from_gives = { λ x c. c ≡ class_letter x };

    fn from(class: DefectClass) -> char {
        match class {
            DefectClass::Critical => 'C',
            DefectClass::Major => 'M',
            DefectClass::Minor => 'N',
        }
    }
}

// The class whose letter it is; no other letter has one.
impl TryFrom<char> for DefectClass {
    type Error = UnknownLetter;

    ghost try_from_gives = { LetterRead class_letter class_of };

    fn try_from(letter: char) -> Result<DefectClass, UnknownLetter> {
        match letter {
            'C' => Ok(DefectClass::Critical),
            'M' => Ok(DefectClass::Major),
            'N' => Ok(DefectClass::Minor),
            _ => Err(UnknownLetter { letter }),
        }
    }
}

// The three counts of a tally that are judged.
#[derive(Clone, Copy, PartialEq, Eq, Debug)]
pub enum JudgedClass {
    Critical,
    Major,
    // Critical, major and minor defects together.
    Total,
}

impl JudgedClass {
    pub const ALL: [JudgedClass; 3] = [
        JudgedClass::Critical,
        JudgedClass::Major,
        JudgedClass::Total,
    ];

    // How many defects of the class the tally has.
    pub fn count(self, tally: &Tally) -> u64
        ensures value { result ≡ count_of self tally.now }
        ensures few { result < 3 * 2 ^ 32 }
    {
        match self {
            JudgedClass::Critical => u64::from(tally.critical),
            JudgedClass::Major => u64::from(tally.major),
            JudgedClass::Total => tally.total(),
        }
    }
}

// One of something for each count that is judged.
#[derive(Clone, Copy, PartialEq, Eq, Debug)]
pub struct PerClass<T> {
    pub critical: T,
    pub major: T,
    pub total: T,
}

impl<T: Copy> PerClass<T> {
    pub fn of(&self, class: JudgedClass) -> T
        ensures { result ≡ at_class self.now class }
    {
        match class {
            JudgedClass::Critical => self.critical,
            JudgedClass::Major => self.major,
            JudgedClass::Total => self.total,
        }
    }
}
