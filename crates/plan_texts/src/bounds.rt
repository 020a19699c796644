// What each row of a plan keeps, and which row may follow it.
ghost use Rattle.std.specs.Prelude.{◌≡◌};
ghost use Rattle.inspection.specs.Classes.{at_class};
ghost use Rattle.plans.specs.Plans.{in_width, class_in_width, class_order, class_single, class_kept, samples_kept, lot_row_kept, limit_row_kept, lot_row_follows, limit_row_follows};
ghost use Rattle.plan_texts.specs.PlanTexts.{row_kept, row_follows};

use crate::row::Row;
use inspection::class::JudgedClass;
use plans::rows::{ClassNumbers, LimitRow, LotRow};

const LARGEST: u32 = 9_999_999;

const MOST_UNITS: u32 = 2_000;

fn in_width(number: u32) -> bool
    ensures { result ≡ in_width number }
{
    number <= LARGEST
}

fn class_in_width(numbers: ClassNumbers) -> bool
    ensures { result ≡ class_in_width numbers }
{
    in_width(numbers.accept_first)
        && in_width(numbers.reject_first)
        && in_width(numbers.accept_both)
}

// A first sample is not both accepted and rejected, and what it leaves open both samples decide.
fn class_order(numbers: ClassNumbers) -> bool
    ensures { result ≡ class_order numbers }
{
    numbers.accept_first < numbers.reject_first
        && numbers.accept_first <= numbers.accept_both
        && u64::from(numbers.reject_first) <= u64::from(numbers.accept_both) + 1
}

// A single plan decides at once.
fn class_single(numbers: ClassNumbers) -> bool
    ensures { result ≡ class_single numbers }
{
    u64::from(numbers.reject_first) == u64::from(numbers.accept_first) + 1
        && numbers.accept_both == numbers.accept_first
}

fn class_kept(row: &LotRow, class: JudgedClass) -> bool
    ensures { result ≡ class_kept row.now (at_class row.now.numbers class) }
{
    let numbers = row.numbers.of(class);
    let single = row.first_sample == row.total_sample;
    class_in_width(numbers) && class_order(numbers) && (!single || class_single(numbers))
}

fn samples_kept(row: &LotRow) -> bool
    ensures { result ≡ samples_kept row.now }
{
    row.first_sample >= 1
        && row.first_sample <= row.total_sample
        && row.total_sample <= MOST_UNITS
        && row.total_sample <= row.lowest_size
}

fn lot_row_kept(row: &LotRow) -> bool
    ensures { result ≡ lot_row_kept row.now }
{
    in_width(row.lowest_size)
        && samples_kept(row)
        && JudgedClass::ALL.iter().all(|class| class_kept(row, *class))
}

fn limit_row_kept(row: &LimitRow) -> bool
    ensures { result ≡ limit_row_kept row.now }
{
    in_width(row.lowest_units)
        && JudgedClass::ALL
            .iter()
            .all(|class| in_width(row.limits.of(*class)))
}

// A later status, or the same one and larger lots.
fn lot_row_follows(row: &LotRow, next: &LotRow) -> bool
    ensures { result ≡ lot_row_follows row.now next.now }
{
    (row.status, row.lowest_size) < (next.status, next.lowest_size)
}

fn limit_row_follows(row: &LimitRow, next: &LimitRow) -> bool
    ensures { result ≡ limit_row_follows row.now next.now }
{
    row.lowest_units < next.lowest_units
}

impl Row {
    pub(crate) fn is_kept(&self) -> bool
        ensures { result ≡ row_kept self.now }
    {
        match self {
            Row::Lot(row) => lot_row_kept(row),
            Row::Limit(row) => limit_row_kept(row),
        }
    }

    // Whether the row may stand right after this one: limit rows come after all lot rows.
    pub(crate) fn may_precede(&self, next: &Row) -> bool
        ensures { result ≡ row_follows self.now next.now }
    {
        match (self, next) {
            (Row::Lot(row), Row::Lot(next)) => lot_row_follows(row, next),
            (Row::Lot(_), Row::Limit(_)) => true,
            (Row::Limit(_), Row::Lot(_)) => false,
            (Row::Limit(row), Row::Limit(next)) => limit_row_follows(row, next),
        }
    }
}
