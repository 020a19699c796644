// The table of portions: what each class tolerates on each status, and the value that runs along with it.
ghost use Rattle.std.specs.Prelude.{◌≡◌, ◌≤◌};
ghost use Rattle.regimes.specs.Portions.{cusum_of};

use inspection::class::{JudgedClass, PerClass};
use inspection::status::Status;

// In hundredths of a defect.
#[derive(Clone, Copy, PartialEq, Eq, Debug)]
pub struct Cusum {
    // What each portion takes off the value.
    pub tolerance: u32,
    // A portion whose value is above it is rejected.
    pub limit: u32,
    // The value that a stretch begins with.
    pub start: u32,
}

// A row for each class: critical, major, total; in it the statuses normal, tightened, reduced.
const TABLE: [[Cusum; 3]; 3] = [
    [
        Cusum {
            tolerance: 5,
            limit: 95,
            start: 35,
        },
        Cusum {
            tolerance: 10,
            limit: 90,
            start: 30,
        },
        Cusum {
            tolerance: 0,
            limit: 0,
            start: 0,
        },
    ],
    [
        Cusum {
            tolerance: 50,
            limit: 200,
            start: 100,
        },
        Cusum {
            tolerance: 80,
            limit: 160,
            start: 40,
        },
        Cusum {
            tolerance: 50,
            limit: 50,
            start: 0,
        },
    ],
    [
        Cusum {
            tolerance: 200,
            limit: 300,
            start: 100,
        },
        Cusum {
            tolerance: 250,
            limit: 300,
            start: 100,
        },
        Cusum {
            tolerance: 200,
            limit: 100,
            start: 0,
        },
    ],
];

impl Cusum {
    pub fn of(class: JudgedClass, status: Status) -> Cusum
        ensures entry { result ≡ cusum_of class status }
        ensures within { result.start ≤ result.limit }
    {
        TABLE[class as usize][status as usize]
    }
}

// The running value of each class.
pub type Values = PerClass<u32>;
