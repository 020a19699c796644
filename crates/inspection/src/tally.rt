// The defects of a sample, counted by class.
ghost use Rattle.std.specs.Prelude.{◌≡◌, ◌*◌, ◌^◌, ◌<◌};
ghost use Rattle.inspection.specs.Tallies.{total_of};

#[derive(Clone, Copy, PartialEq, Eq, Debug)]
pub struct Tally {
    pub critical: u32,
    pub major: u32,
    pub minor: u32,
}

impl Tally {
    // A clean sample.
    pub const CLEAN: Tally = Tally {
        critical: 0,
        major: 0,
        minor: 0,
    };

    pub fn total(&self) -> u64
        ensures value { result ≡ total_of self.now }
        ensures few { result < 3 * 2 ^ 32 }
    {
        u64::from(self.critical) + u64::from(self.major) + u64::from(self.minor)
    }
}
