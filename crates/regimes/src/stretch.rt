// A whole stretch of portions, judged one after another.
ghost use Rattle.std.specs.Prelude.{◌≡◌, IfOk};
ghost use Rattle.regimes.specs.Portions.{verdicts_of};
ghost use Rattle.regimes.specs.Rows.{JudgedByRows};

use crate::judge::{Judge, Regime};
use crate::on_line::OnLine;
use inspection::status::Status;
use inspection::tally::Tally;
use inspection::verdict::Verdict;
use std::alloc::{AllocError, Global};

impl OnLine {
    // The verdicts on the portions of a stretch, from the starting values on.
    pub fn judge_stretch(
        &self,
        status: Status,
        tallies: &[Tally],
        heap: Global,
    ) -> Result<Vec<Verdict>, AllocError>
        ensures verdicts { IfOk result (λ v. v.items ≡ verdicts_of status tallies.now) }
        ensures by_rows { IfOk result (λ v. JudgedByRows status tallies.now v.items) }
    {
        let mut verdicts = Vec::with_capacity(heap, tallies.len())?;
        let mut values = self.starting(status);
        for tally in tallies {
            let (verdict, held) = self.judge(status, 0, *tally, values);
            verdicts.push(verdict)?;
            values = held;
        }
        Ok(verdicts)
    }
}
