// A plan book from a text.
ghost use Rattle.std.specs.Prelude.{◌≡◌, Some, None, MatchResult, OnOk};
ghost use Rattle.texts.specs.Pieces.{shown};
ghost use Rattle.plans.specs.Plans.{between, counts_kept, each_status, rows_of};
ghost use Rattle.plan_texts.specs.declared.reading.PlanError.TheVariants.{Refused, NoMemory};
ghost use Rattle.plan_texts.specs.PlanTexts.{told, fault, Answers, Replaced};
ghost use Rattle.plan_texts.specs.Putting.{Put};
ghost use Rattle.plan_texts.specs.RowLines.{row_of};

use crate::row::Row;
use crate::row_line::read_row;
use inspection::refusal::Refusal;
use inspection::status::Status;
use plans::plan_book::PlanBook;
use plans::rows::{LimitRow, LotRow};
use std::alloc::{AllocError, Global};
use std::error::Error;
use std::fmt;
use texts::lines::{Item, Lines};

// Why there is no plan book.
#[derive(Clone, Copy, Debug)]
pub enum PlanError {
    Refused(Refusal),
    NoMemory,
}

impl From<Refusal> for PlanError {
    ghost from_gives = { λ refusal e. e ≡ Refused refusal };

    fn from(refusal: Refusal) -> PlanError {
        PlanError::Refused(refusal)
    }
}

impl From<AllocError> for PlanError {
    ghost from_gives = { λ _ e. e ≡ NoMemory };

    fn from(_error: AllocError) -> PlanError {
        PlanError::NoMemory
    }
}

impl fmt::Display for PlanError {
    ghost output = { told };

    fn fmt<W: fmt::Write>(&self, f: &mut fmt::Formatter<W>) -> fmt::Result {
        match self {
            PlanError::Refused(why) => write!(f, "{why}"),
            PlanError::NoMemory => f.write_str("no memory for the plan"),
        }
    }
}

impl Error for PlanError {}

// The row that a line says after the row `last`, or what is wrong with it: the lowest number first.
fn check(item: &Item<'_>, last: Option<Row>) -> Result<Row, Refusal>
    ensures { MatchResult result (λ w. (fault last (shown item.now) ≡ None) × (row_of (shown item.now) ≡ Some w)) (λ e. fault last (shown item.now) ≡ Some e) }
{
    let line = item.line();
    let row = read_row(item).ok_or(Refusal::PlanLineNotOfForm { line })?;
    if !row.is_kept() {
        return Err(Refusal::PlanBoundBroken { line });
    }
    if let Some(last) = last
        && !last.may_precede(&row)
    {
        return Err(Refusal::PlanRowOutOfOrder { line });
    }
    Ok(row)
}

// How many rows are of the status.
fn rows_of(lots: &[LotRow], status: Status) -> usize
    ensures { result ≡ rows_of status lots.now }
{
    lots.iter().filter(|row| row.status == status).count()
}

// 1 to 32 rows of the status.
fn rows_of_kept(lots: &[LotRow], status: Status) -> bool
    ensures { result ≡ between 32 (rows_of status lots.now) }
{
    (1..=32).contains(&rows_of(lots, status))
}

// 1 to 32 rows of each status.
fn lots_kept(lots: &[LotRow]) -> bool
    ensures { result ≡ each_status (λ status. between 32 (rows_of status lots.now)) }
{
    Status::ALL.iter().all(|status| rows_of_kept(lots, *status))
}

// 1 to 32 lot rows for each status, and 1 to 16 limit rows.
fn counts_kept(lots: &[LotRow], limits: &[LimitRow]) -> bool
    ensures { result ≡ counts_kept lots.now limits.now }
{
    lots_kept(lots) && (1..=16).contains(&limits.len())
}

// The rows that are read so far, and the last of them.
#[derive(Drop)]
struct Running {
    lots: Vec<LotRow>,
    limits: Vec<LimitRow>,
    last: Option<Row>,
}

impl Running {
    fn put(&mut self, row: Row) -> Result<(), AllocError>
        ensures { OnOk result (Put self.old row self.new) }
    {
        match row {
            Row::Lot(row) => self.lots.push(row)?,
            Row::Limit(row) => self.limits.push(row)?,
        }
        self.last = Some(row);
        Ok(())
    }
}

// The plan book of a text, which is taken whole or refused at its first bad line.
#[tactic(auto, using(crate::proofs::PlanReading::going_more, crate::proofs::PlanReading::plan_read))]
pub fn read_plan(text: &[u8], heap: Global) -> Result<PlanBook, PlanError>
    ensures { Answers text.now result }
{
    let mut running = Running {
        lots: Vec::new(heap),
        limits: Vec::new(heap),
        last: None,
    };
    for item in Lines::new(text) {
        let row = check(&item, running.last)?;
        running.put(row)?;
    }
    let Running { lots, limits, .. } = running;
    if !counts_kept(&lots, &limits) {
        return Err(Refusal::PlanRowCountsWrong.into());
    }
    Ok(PlanBook { lots, limits })
}

// Another plan in place of this one, which stays where the text is refused.
pub fn replace_plan(plan: &mut PlanBook, text: &[u8], heap: Global) -> Result<(), PlanError>
    ensures { Replaced text.now plan.old result plan.new }
{
    *plan = read_plan(text, heap)?;
    Ok(())
}
