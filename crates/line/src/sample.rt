// A sample: how many units were drawn, and what defects they showed.
ghost use Rattle.std.specs.Prelude.{◌≡◌, ◌*◌, nat_le};
ghost use Rattle.inspection.specs.Tallies.{total_of};
ghost use Rattle.line.specs.Seeing.{first_of_lot};

use entries::entry::Entry;
use inspection::tally::Tally;
use inspection::verdict::Verdict;

#[derive(Clone, Copy)]
pub(crate) struct Sample {
    pub(crate) units: u32,
    pub(crate) tally: Tally,
}

// The sample of an entry.
impl From<Entry> for Sample {
    ghost from_gives = { λ entry sample. sample ≡ record { units = entry.units; tally = entry.tally } };

    fn from(entry: Entry) -> Sample {
        Sample {
            units: entry.units,
            tally: entry.tally,
        }
    }
}

impl Sample {
    // The first sample of a lot's entry, if the lot awaits its second.
    pub(crate) fn of_lot(entry: Entry) -> Option<Sample>
        ensures { result ≡ first_of_lot entry }
    {
        match entry.verdict {
            Verdict::Awaited => Some(Sample::from(entry)),
            _ => None,
        }
    }

    // Whether some sheet shows it: at most nine defects to a unit.
    pub(crate) fn can_be(self) -> bool
        ensures { result ≡ nat_le (total_of self.tally) (9 * self.units) }
    {
        self.tally.total() <= 9 * u64::from(self.units)
    }
}
