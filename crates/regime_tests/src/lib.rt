// Tests of the regimes, in a crate of their own.
#![tactic(auto)]

#[cfg(test)]
mod lots;
#[cfg(test)]
mod marked;
#[cfg(test)]
mod portions;

#[cfg(test)]
use inspection::class::PerClass;
#[cfg(test)]
use inspection::status::Status;
#[cfg(test)]
use inspection::tally::Tally;
#[cfg(test)]
use plans::rows::{ClassNumbers, LotRow};

#[cfg(test)]
fn tally(critical: u32, major: u32, minor: u32) -> Tally {
    Tally {
        critical,
        major,
        minor,
    }
}

#[cfg(test)]
fn per_class(critical: u32, major: u32, total: u32) -> PerClass<u32> {
    PerClass {
        critical,
        major,
        total,
    }
}

// A double plan: 0, 3, 3 for critical defects, 5, 7, 8 for major ones and the total.
#[cfg(test)]
const DOUBLE_ROW: LotRow = LotRow {
    status: Status::Normal,
    lowest_size: 100,
    first_sample: 13,
    total_sample: 26,
    numbers: PerClass {
        critical: ClassNumbers {
            accept_first: 0,
            reject_first: 3,
            accept_both: 3,
        },
        major: ROOMY,
        total: ROOMY,
    },
};

#[cfg(test)]
const ROOMY: ClassNumbers = ClassNumbers {
    accept_first: 5,
    reject_first: 7,
    accept_both: 8,
};
