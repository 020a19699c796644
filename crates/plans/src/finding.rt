// The fresh plan book, and what a plan book says of a lot.
ghost use Rattle.std.specs.Prelude.{◌≡◌, true, IfSome, IfOk};
ghost use Rattle.plans.specs.Finding.{row_fits, row_for, limits_fit, limits_for};
ghost use Rattle.plans.specs.Fresh.{fresh_row, fresh_lots, fresh_limits};
ghost use Rattle.plans.specs.Plans.{lot_row_kept};

use crate::plan_book::PlanBook;
use crate::rows::{ClassNumbers, LimitRow, LotRow};
use inspection::class::PerClass;
use inspection::status::Status;
use std::alloc::{AllocError, Global};

const NONE_ACCEPTED: ClassNumbers = ClassNumbers {
    accept_first: 0,
    reject_first: 1,
    accept_both: 0,
};

fn fresh_row(status: Status) -> LotRow
    ensures { result ≡ fresh_row status }
{
    LotRow {
        status,
        lowest_size: 1,
        first_sample: 1,
        total_sample: 1,
        numbers: PerClass {
            critical: NONE_ACCEPTED,
            major: NONE_ACCEPTED,
            total: NONE_ACCEPTED,
        },
    }
}

// The row is of the status, and for lots of the size.
fn fits_lot(row: &LotRow, status: Status, size: u32) -> bool
    ensures { result ≡ row_fits status size row.now }
{
    row.status == status && row.lowest_size <= size
}

fn fits_units(row: &LimitRow, units: u64) -> bool
    ensures { result ≡ limits_fit units row.now }
{
    u64::from(row.lowest_units) <= units
}

impl PlanBook {
    // One container of every lot, and not one defect.
    pub fn fresh(heap: Global) -> Result<PlanBook, AllocError>
        ensures lots { IfOk result (λ p. p.lots.items ≡ fresh_lots) }
        ensures limits { IfOk result (λ p. p.limits.items ≡ fresh_limits) }
    {
        let lots = vec![in heap;
            fresh_row(Status::Normal),
            fresh_row(Status::Tightened),
            fresh_row(Status::Reduced),
        ]?;
        let limits = vec![in heap;
            LimitRow {
                lowest_units: 1,
                limits: PerClass {
                    critical: 0,
                    major: 0,
                    total: 0
                },
            },
        ]?;
        Ok(PlanBook { lots, limits })
    }

    // All lot rows, in order.
    pub fn lots(&self) -> &[LotRow]
        ensures { result.now ≡ self.now.lots.items }
    {
        &self.lots
    }

    // All limit rows, in order.
    pub fn limits(&self) -> &[LimitRow]
        ensures { result.now ≡ self.now.limits.items }
    {
        &self.limits
    }

    // The row for a lot of that size.
    pub fn lot_row(&self, status: Status, size: u32) -> Option<LotRow>
        ensures row { result ≡ row_for status size self.now.lots.items }
        ensures kept { IfSome result (λ row. lot_row_kept row ≡ true) }
    {
        let mut found = None;
        for i in 0..self.lots.len() {
            let row = self.lots[i];
            found = fits_lot(&row, status, size).then_some(row).or(found);
        }
        found
    }

    // The limits of relief for samples of so many units.
    pub fn relief_limits(&self, units: u32) -> Option<LimitRow>
        ensures { result ≡ limits_for units self.now.limits.items }
    {
        self.wide_relief_limits(u64::from(units))
    }

    // The limits of relief where the units of many samples are counted together.
    pub fn wide_relief_limits(&self, units: u64) -> Option<LimitRow>
        ensures { result ≡ limits_for units self.now.limits.items }
    {
        self.limits
            .iter()
            .rev()
            .find(|row| fits_units(row, units))
            .copied()
    }
}
