// What is seen of some articles: how many, how many rejected, their units and their defects.
ghost use Rattle.std.specs.Prelude.{◌≡◌, [], ◌∷◌};
ghost use Rattle.runs.specs.Lines.{sole};
ghost use Rattle.line.specs.Seeing.{seen_of, seen_sample, is_above, together, Within};

use crate::sample::Sample;
use entries::entry::Entry;
use inspection::class::{JudgedClass, PerClass};
use inspection::verdict::Verdict;
use regimes::judge::Limits;
use std::ops::Add;

#[derive(Clone, Copy)]
pub(crate) struct Seen {
    pub(crate) articles: u32,
    pub(crate) rejected: u32,
    pub(crate) units: u64,
    pub(crate) defects: PerClass<u64>,
}

impl Seen {
    pub(crate) const NOTHING: Seen = Seen {
        articles: 0,
        rejected: 0,
        units: 0,
        defects: PerClass {
            critical: 0,
            major: 0,
            total: 0,
        },
    };

    // Whether the defects of some class are above its limit.
    pub(crate) fn is_above(&self, limits: &Limits) -> bool
        ensures { result ≡ is_above self.now limits.now }
    {
        JudgedClass::ALL.iter().any(|class| self.defects.of(*class) > u64::from(limits.of(*class)))
    }
}

// A sample that decides no article by itself.
impl From<Sample> for Seen {
    ghost from_gives = { λ sample seen. (seen ≡ seen_sample sample) × Within 1 seen };

    fn from(sample: Sample) -> Seen {
        Seen {
            units: u64::from(sample.units),
            defects: PerClass {
                critical: u64::from(sample.tally.critical),
                major: u64::from(sample.tally.major),
                total: sample.tally.total(),
            },
            ..Seen::NOTHING
        }
    }
}

// The article that an entry's sample decides by itself.
impl From<Entry> for Seen {
    ghost from_gives = { λ entry seen. (seen ≡ seen_of (sole entry ∷ [])) × Within 1 seen };

    fn from(entry: Entry) -> Seen {
        Seen {
            articles: 1,
            rejected: u32::from(entry.verdict == Verdict::Rejected),
            ..Seen::from(Sample::from(entry))
        }
    }
}

// Both together; no book can show so much that a sum overflows.
impl Add for Seen {
    type Output = Seen;

    ghost can_add = { λ a b. Within 20000000 a × Within 20000000 b };

    ghost add_gives = { λ a b sum. sum ≡ together a b };

    fn add(self, other: Seen) -> Seen {
        Seen {
            articles: self.articles + other.articles,
            rejected: self.rejected + other.rejected,
            units: self.units + other.units,
            defects: PerClass {
                critical: self.defects.critical + other.defects.critical,
                major: self.defects.major + other.defects.major,
                total: self.defects.total + other.defects.total,
            },
        }
    }
}
