// Tests of entries, their lines and the books, in a crate of their own.
#![tactic(auto)]

#[cfg(test)]
mod keeping;
#[cfg(test)]
mod lines;

#[cfg(test)]
use entries::entry::Entry;
#[cfg(test)]
use inspection::kind::Kind;
#[cfg(test)]
use inspection::status::Status;
#[cfg(test)]
use inspection::tally::Tally;
#[cfg(test)]
use inspection::verdict::Verdict;

#[cfg(test)]
fn lot(lot_size: u32, units: u32, critical: u32, major: u32, minor: u32) -> Entry {
    Entry {
        kind: Kind::Lot,
        status: Status::Normal,
        verdict: Verdict::Accepted,
        lot_size,
        units,
        tally: Tally {
            critical,
            major,
            minor,
        },
    }
}

#[cfg(test)]
fn portion(minor: u32) -> Entry {
    Entry {
        kind: Kind::Portion,
        ..lot(0, 25, 0, 0, minor)
    }
}

#[cfg(test)]
fn opened() -> Entry {
    Entry {
        kind: Kind::PeriodOpened,
        verdict: Verdict::Undecided,
        ..lot(0, 0, 0, 0, 0)
    }
}
