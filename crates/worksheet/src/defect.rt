// One keyed defect: the unit of the sample, the cause on it, and how serious it is.
ghost use Rattle.std.specs.Prelude.{◌≡◌, Some};
ghost use Rattle.worksheet.specs.Defects.{pair as pair_of, related, falls, written};

use inspection::class::DefectClass;
use std::fmt;

#[derive(Clone, Copy, PartialEq, Eq, Debug)]
pub struct Defect {
    pub unit: u16,
    pub cause: u8,
    pub class: DefectClass,
}

impl Defect {
    fn pair(&self) -> (u16, u8)
        ensures { result ≡ pair_of self.now }
    {
        (self.unit, self.cause)
    }

    // Related defects have one unit and one cause, and score once.
    pub fn is_related_to(&self, other: &Defect) -> bool
        ensures { result ≡ related self.now other.now }
    {
        self.pair() == other.pair()
    }

    // Its pair of unit and cause comes before the other's, the unit compared first.
    pub fn falls_below(&self, other: &Defect) -> bool
        ensures { result ≡ falls self.now other.now }
    {
        self.pair() < other.pair()
    }
}

// The defect's line of a sheet.
impl fmt::Display for Defect {
    ghost output = { λ d. Some (written d) };

    fn fmt<W: fmt::Write>(&self, f: &mut fmt::Formatter<W>) -> fmt::Result {
        let unit = self.unit;
        let cause = self.cause;
        let class = char::from(self.class);
        write!(f, "{unit}\t{cause}\t{class}\n")
    }
}
