// The stationary regime: lots, judged by one or two samples and the rows of a plan book.
ghost use Rattle.std.specs.Prelude.{◌≡◌, true, IfSome};
ghost use Rattle.plans.specs.Plans.{lot_row_kept};
ghost use Rattle.inspection.specs.Classes.{count_of, each_class, some_class};
ghost use Rattle.regimes.specs.Lots.{row_of_lot, added, accepts_first, rejects_first, accepts_both, first_judged, both_judged, stationary_rules};

use crate::judge::{Judge, Limits, Regime};
use inspection::class::JudgedClass;
use inspection::status::Status;
use inspection::tally::Tally;
use inspection::verdict::Verdict;
use plans::plan_book::PlanBook;
use plans::rows::LotRow;

// No lot is larger.
pub const LARGEST_LOT: u32 = 9_999_999;

#[derive(Drop)]
pub struct Stationary {
    plan: PlanBook,
}

impl Stationary {
    pub fn new(plan: PlanBook) -> Stationary
        ensures { result.plan ≡ plan }
    {
        Stationary { plan }
    }

    // Gives the plan book back.
    pub fn into_plan(self) -> PlanBook
        ensures { result ≡ self.plan }
    {
        self.plan
    }

    // The row for a lot; none for a size that no lot has.
    pub fn row_of_lot(&self, status: Status, lot_size: u32) -> Option<LotRow>
        ensures row { result ≡ row_of_lot status lot_size self.now.plan.lots.items }
        ensures kept { IfSome result (λ row. lot_row_kept row ≡ true) }
    {
        if lot_size > LARGEST_LOT {
            return None;
        }
        self.plan.lot_row(status, lot_size)
    }
}

fn all_accept_first(row: &LotRow, tally: &Tally) -> bool
    ensures { result ≡ each_class (accepts_first row.now tally.now) }
{
    JudgedClass::ALL.iter().all(|class| {
        class.count(tally) <= u64::from(row.numbers.of(*class).accept_first)
    })
}

fn some_reject_first(row: &LotRow, tally: &Tally) -> bool
    ensures { result ≡ some_class (rejects_first row.now tally.now) }
{
    JudgedClass::ALL.iter().any(|class| {
        class.count(tally) >= u64::from(row.numbers.of(*class).reject_first)
    })
}

// In both samples together, added as wide numbers: any two counts have a sum.
fn count_in_both(class: JudgedClass, first: &Tally, second: &Tally) -> u64
    ensures { result ≡ count_of class (added first.now second.now) }
{
    class.count(first) + class.count(second)
}

fn all_accept_both(row: &LotRow, first: &Tally, second: &Tally) -> bool
    ensures { result ≡ each_class (accepts_both row.now (added first.now second.now)) }
{
    JudgedClass::ALL.iter().all(|class| {
        count_in_both(*class, first, second) <= u64::from(row.numbers.of(*class).accept_both)
    })
}

// The first sample, whose tally is carried while a second is awaited.
pub fn judge_first(row: &LotRow, tally: Tally) -> (Verdict, Option<Tally>)
    ensures { result ≡ first_judged row.now tally }
{
    if all_accept_first(row, &tally) {
        (Verdict::Accepted, None)
    } else if some_reject_first(row, &tally) {
        (Verdict::Rejected, None)
    } else {
        (Verdict::Awaited, Some(tally))
    }
}

pub fn judge_both(row: &LotRow, first: Tally, second: Tally) -> (Verdict, Option<Tally>)
    ensures { result ≡ both_judged row.now (added first second) }
{
    if all_accept_both(row, &first, &second) {
        (Verdict::Accepted, None)
    } else {
        (Verdict::Rejected, None)
    }
}

impl Judge for Stationary {
    type Carried = Option<Tally>;

    ghost judged = { λ b. (stationary_rules b.plan.lots.items b.plan.limits.items).judged };

    fn judge(
        &self,
        status: Status,
        lot_size: u32,
        tally: Tally,
        carried: Option<Tally>,
    ) -> (Verdict, Option<Tally>) {
        let Some(row) = self.row_of_lot(status, lot_size) else {
            return (Verdict::Rejected, None);
        };
        match carried {
            None => judge_first(&row, tally),
            Some(first) => judge_both(&row, first, tally),
        }
    }
}

impl Regime for Stationary {
    const WINDOW: u32 = 10;

    const CAP: u32 = 0;

    ghost rules = { λ b. stationary_rules b.plan.lots.items b.plan.limits.items };

    fn window_length(&self) -> u32 {
        Self::WINDOW
    }

    fn most_rejected(&self) -> u32 {
        Self::CAP
    }

    fn judges_portions(&self) -> bool {
        false
    }

    fn starting(&self, status: Status) -> Option<Tally> {
        None
    }

    fn sample_units(&self, status: Status, lot_size: u32, carried: Option<Tally>) -> Option<u32> {
        let row = self.row_of_lot(status, lot_size)?;
        Some(match carried {
            None => row.first_sample,
            Some(_) => row.total_sample - row.first_sample,
        })
    }

    fn relief_limits(&self, units: u64) -> Option<Limits> {
        self.plan.wide_relief_limits(units).map(|row| row.limits)
    }

    fn decide(
        &self,
        status: Status,
        lot_size: u32,
        tally: Tally,
        carried: Option<Tally>,
    ) -> (Verdict, Option<Tally>) {
        self.judge(status, lot_size, tally, carried)
    }
}
