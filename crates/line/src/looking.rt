// Whether an article turns the status, by the articles before it.
ghost use Rattle.std.specs.Prelude.{◌≡◌};
ghost use Rattle.runs.specs.History.{verdicts, is_rejected};
ghost use Rattle.runs.specs.Lines.{in_spell};
ghost use Rattle.runs.specs.Spells.{breaks};

use crate::earlier::Earlier;
use crate::line::Line;
use books::book::Book;
use inspection::status::Status;
use inspection::verdict::Verdict;
use regimes::judge::{Judge, Regime};

impl<R: Regime, B: Book> Line<R, B>
where
    R::Carried: Copy,
{
    // Whether an article with the verdict, after the earlier entries, breaks the rule of the spell.
    pub(crate) fn turns(&self, earlier: &Earlier<'_, B>, verdict: Verdict) -> bool
        ensures { result ≡ breaks (R.Regime.rules self.now.regime).window (R.Regime.rules self.now.regime).most_rejected self.now.standing.status (verdicts (in_spell (R.Regime.rules self.now.regime) self.now.standing earlier.now)) (is_rejected verdict) }
    {
        let spell = self.standing.spell;
        match (self.standing.status, verdict) {
            (Status::Normal, Verdict::Rejected) => earlier.look_back(spell.min(4)).rejected > 0,
            (Status::Tightened, Verdict::Rejected) => false,
            (Status::Tightened, _) => {
                let seen = earlier.look_back(spell.min(4));
                seen.articles >= 4 && seen.rejected == 0
            }
            (Status::Reduced, Verdict::Rejected) => {
                let others = self.regime.window_length().saturating_sub(1);
                earlier.look_back(spell.min(others)).rejected >= self.regime.most_rejected()
            }
            _ => false,
        }
    }
}
