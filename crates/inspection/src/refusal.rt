// Why a call is refused.
ghost use Rattle.std.specs.Prelude.{◌≡◌};
ghost use Rattle.inspection.specs.Notices.{notice_of, ToldApart, plain as unplaced, placed as naming};

use std::fmt;

#[derive(Clone, Copy, PartialEq, Eq, Debug)]
pub enum Refusal {
    // The inspector's sheet.
    SheetLineNotOfForm { line: usize },
    UnitAboveSample { line: usize },
    PairFalls { line: usize },
    // The day clerk's commands.
    CommandNotOfForm,
    // The shift lead's calls.
    NoPeriodOpen,
    PeriodOpenAlready,
    LotAwaits,
    NoLotAwaits,
    SlipIsOut,
    LotSizeOutOfRange,
    // The administrator's calls.
    ReliefOffNormal,
    SpellTooShort,
    TooManyRejected,
    TooFewUnits,
    DefectsAboveLimit,
    NoticeOffReduced,
    // The book.
    NoRoom,
    BookUnsound { entry: usize },
    EntryUnwritable,
    // The plan maker's text.
    PlanLineNotOfForm { line: usize },
    PlanBoundBroken { line: usize },
    PlanRowOutOfOrder { line: usize },
    PlanRowCountsWrong,
}

// Where the reason stands.
#[derive(Clone, Copy, PartialEq, Eq, Debug)]
pub enum Place {
    SheetLine(usize),
    BookEntry(usize),
    PlanLine(usize),
}

// A refusal as people are told of it: its fixed number, and the place that it names, if any.
#[derive(Clone, Copy, PartialEq, Eq, Debug)]
pub struct Notice {
    pub number: u8,
    pub place: Option<Place>,
}

fn plain(number: u8) -> Notice
    ensures { result ≡ unplaced number }
{
    Notice {
        number,
        place: None,
    }
}

fn placed(number: u8, place: Place) -> Notice
    ensures { result ≡ naming number place }
{
    Notice {
        number,
        place: Some(place),
    }
}

impl Refusal {
    pub fn notice(&self) -> Notice
        ensures { result ≡ notice_of self.now }
    {
        match *self {
            Refusal::SheetLineNotOfForm { line } => placed(11, Place::SheetLine(line)),
            Refusal::UnitAboveSample { line } => placed(12, Place::SheetLine(line)),
            Refusal::PairFalls { line } => placed(13, Place::SheetLine(line)),
            Refusal::CommandNotOfForm => plain(15),
            Refusal::NoPeriodOpen => plain(21),
            Refusal::PeriodOpenAlready => plain(22),
            Refusal::LotAwaits => plain(23),
            Refusal::NoLotAwaits => plain(24),
            Refusal::SlipIsOut => plain(25),
            Refusal::LotSizeOutOfRange => plain(26),
            Refusal::ReliefOffNormal => plain(31),
            Refusal::SpellTooShort => plain(32),
            Refusal::TooManyRejected => plain(33),
            Refusal::TooFewUnits => plain(34),
            Refusal::DefectsAboveLimit => plain(35),
            Refusal::NoticeOffReduced => plain(36),
            Refusal::NoRoom => plain(41),
            Refusal::BookUnsound { entry } => placed(42, Place::BookEntry(entry)),
            Refusal::EntryUnwritable => plain(43),
            Refusal::PlanLineNotOfForm { line } => placed(51, Place::PlanLine(line)),
            Refusal::PlanBoundBroken { line } => placed(52, Place::PlanLine(line)),
            Refusal::PlanRowOutOfOrder { line } => placed(53, Place::PlanLine(line)),
            Refusal::PlanRowCountsWrong => plain(54),
        }
    }
}

// Number and place tell every refusal from every other, so a promise about one is a promise about the other.
pub fn notices_tell_refusals_apart()
    ensures { ToldApart }
{}

impl Refusal {
    // What is wrong, in words.
    fn reason(&self) -> &'static str {
        match *self {
            Refusal::SheetLineNotOfForm { .. } => {
                "it is not unit, tab, cause, tab, class letter and line feed"
            }
            Refusal::UnitAboveSample { .. } => "its unit is above the sample",
            Refusal::PairFalls { .. } => "its unit and cause come before those of the line above",
            Refusal::CommandNotOfForm => "the command is not of form",
            Refusal::NoPeriodOpen => "no period is open",
            Refusal::PeriodOpenAlready => "a period is open already",
            Refusal::LotAwaits => "a lot awaits its second sample",
            Refusal::NoLotAwaits => "no lot awaits a second sample, or the slip is another's",
            Refusal::SlipIsOut => "the slip is out",
            Refusal::LotSizeOutOfRange =>
                "the lot size is below the plan's first row or above 9999999",
            Refusal::ReliefOffNormal => "relief is granted on normal inspection only",
            Refusal::SpellTooShort => "the spell is shorter than the window",
            Refusal::TooManyRejected => "too many are rejected in the last window",
            Refusal::TooFewUnits => "the samples have fewer units than the first limit row",
            Refusal::DefectsAboveLimit => "the defects are above their limit",
            Refusal::NoticeOffReduced =>
                "irregular production is reported on reduced inspection only",
            Refusal::NoRoom => "the book has no room",
            Refusal::BookUnsound { .. } => "no line would have written it",
            Refusal::EntryUnwritable => "the entry cannot be written",
            Refusal::PlanLineNotOfForm { .. } => "it is not of form",
            Refusal::PlanBoundBroken { .. } => "its numbers break a bound",
            Refusal::PlanRowOutOfOrder { .. } => "its row is out of order",
            Refusal::PlanRowCountsWrong => "a status or the limits have too few or too many rows",
        }
    }
}

impl fmt::Display for Place {
    fn fmt<W: fmt::Write>(&self, f: &mut fmt::Formatter<W>) -> fmt::Result {
        match *self {
            Place::SheetLine(line) => write!(f, "line {line} of the sheet"),
            Place::BookEntry(entry) => write!(f, "entry {entry} of the book"),
            Place::PlanLine(line) => write!(f, "line {line} of the plan"),
        }
    }
}

impl fmt::Display for Refusal {
    fn fmt<W: fmt::Write>(&self, f: &mut fmt::Formatter<W>) -> fmt::Result {
        let Notice { number, place } = self.notice();
        let reason = self.reason();
        match place {
            Some(place) => write!(f, "refused {number}, {place}: {reason}"),
            None => write!(f, "refused {number}: {reason}"),
        }
    }
}
