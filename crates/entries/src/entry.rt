// One entry of a book: what a call did, under which status, and with what outcome.
ghost use Rattle.std.specs.Prelude.{◌≡◌};
ghost use Rattle.entries.specs.Entries.{writable, no_numbers, fits_fields, or_spoiled};

use inspection::kind::Kind;
use inspection::status::Status;
use inspection::tally::Tally;
use inspection::verdict::Verdict;

#[derive(Clone, Copy, PartialEq, Eq, Debug)]
pub struct Entry {
    pub kind: Kind,
    pub status: Status,
    pub verdict: Verdict,
    pub lot_size: u32,
    pub units: u32,
    pub tally: Tally,
}

impl Entry {
    // What stands in a book where no writable entry does.
    pub const SPOILED: Entry = Entry {
        kind: Kind::Spoiled,
        status: Status::Normal,
        verdict: Verdict::Undecided,
        lot_size: 0,
        units: 0,
        tally: Tally::CLEAN,
    };

    // Its numbers are 0: lot size, units and tally.
    fn has_no_numbers(&self) -> bool
        ensures { result ≡ no_numbers self.now }
    {
        self.lot_size == 0 && self.units == 0 && self.tally == Tally::CLEAN
    }

    // Its numbers fit the digits of their fields.
    fn fits_its_fields(&self) -> bool
        ensures { result ≡ fits_fields self.now }
    {
        self.lot_size <= 9_999_999
            && self.units <= 9_999
            && self.tally.critical <= 99_999
            && self.tally.major <= 99_999
            && self.tally.minor <= 99_999
    }

    // It can stand in a book.
    pub fn is_writable(&self) -> bool
        ensures { result ≡ writable self.now }
    {
        match self.kind {
            Kind::PeriodOpened | Kind::Relief | Kind::IrregularNotice => {
                self.has_no_numbers() && self.verdict == Verdict::Undecided
            }
            Kind::PeriodEnded => self.has_no_numbers(),
            Kind::Portion => self.lot_size == 0 && self.fits_its_fields(),
            Kind::Lot | Kind::SecondSample => self.fits_its_fields(),
            Kind::Spoiled => false,
        }
    }

    // The entry itself, or the spoiled one where it cannot stand in a book.
    pub fn or_spoiled(&self) -> Entry
        ensures { result ≡ or_spoiled self.now }
    {
        if self.is_writable() {
            *self
        } else {
            Entry::SPOILED
        }
    }
}
