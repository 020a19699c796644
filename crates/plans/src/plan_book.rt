// A plan book, which keeps all that the rules ask of one.
ghost use Rattle.std.specs.Prelude.{◌≡◌, true};
ghost use Rattle.plans.specs.Plans.{keeps};

use crate::rows::{LimitRow, LotRow};

#[derive(Drop)]
pub struct PlanBook {
    pub lots: Vec<LotRow>,
    pub limits: Vec<LimitRow>,
    ghost kept: { keeps lots.items limits.items ≡ true },
}
