// What a line remembers between calls, and what an accepted call answers.
use entries::entry::Entry;
use inspection::status::Status;
use inspection::verdict::Verdict;

// The lot that awaits its second sample.
#[derive(Clone, Copy, PartialEq, Eq, Debug)]
pub struct WaitingLot {
    // The number of its entry.
    pub number: u32,
    pub size: u32,
    pub slip_out: bool,
}

#[derive(Clone, Copy)]
pub struct Standing<C> {
    pub status: Status,
    // How many articles the present spell has: portions and lots decided since the last change of status.
    pub spell: u32,
    // How many portions the open period has, where one is open.
    pub period: Option<u32>,
    pub waiting: Option<WaitingLot>,
    // The judge's numbers.
    pub carried: C,
    // The number of the entry at which the book is unsound, where it is.
    pub unsound: Option<u32>,
}

// What an accepted call answers; the slip is given by its number.
#[derive(Clone, Copy, PartialEq, Eq, Debug)]
pub struct Reply {
    pub verdict: Verdict,
    pub status: Status,
    pub slip: Option<u32>,
}

// What an accepted call comes to: its answer, the line's standing after it, and the entry that it writes.
#[derive(Clone, Copy)]
pub struct Taken<C> {
    pub reply: Reply,
    pub standing: Standing<C>,
    pub writes: Option<Entry>,
}
