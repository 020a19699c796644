// What a judge is, and what a regime is: code above knows the two regimes by these traits alone.
ghost use Rattle.std.specs.Prelude.{◌≡◌, ℕ};
ghost use Rattle.inspection.specs.declared.status.Status.{Status as Stage};
ghost use Rattle.inspection.specs.declared.tally.Tally.{Tally as Counts};
ghost use Rattle.inspection.specs.declared.verdict.Verdict.{Verdict as Answer};
ghost use Rattle.regimes.specs.Rules.{Rules};

use inspection::class::PerClass;
use inspection::status::Status;
use inspection::tally::Tally;
use inspection::verdict::Verdict;

// The most defects that relief allows.
pub type Limits = PerClass<u32>;

pub trait Judge {
    // What is carried from one sample to the next.
    type Carried;

    ghost judged: { Self → Stage → ℕ → Counts → Self.Carried → Answer × Self.Carried };

    // The verdict on a sample and the numbers after it. The lot size of a portion is 0.
    fn judge(
        &self,
        status: Status,
        lot_size: u32,
        tally: Tally,
        carried: Self::Carried,
    ) -> (Verdict, Self::Carried)
        ensures { result ≡ judged self.now status lot_size tally carried };
}

// A judge with all else that a line asks of the rules that it works by.
pub trait Regime: Judge {
    // Relief and reduced inspection look at so many articles,
    const WINDOW: u32;

    // of which so many may be rejected.
    const CAP: u32;

    ghost rules: { Self → Rules Self.Carried };

    fn window_length(&self) -> u32
        ensures { result ≡ (rules self.now).window };

    fn most_rejected(&self) -> u32
        ensures { result ≡ (rules self.now).most_rejected };

    fn judges_portions(&self) -> bool
        ensures { result ≡ (rules self.now).portions };

    // The numbers that a stretch, or a lot, starts with.
    fn starting(&self, status: Status) -> Self::Carried
        ensures { result ≡ (rules self.now).starts status };

    // How many units the next sample has; none where no row of a plan is for the lot.
    fn sample_units(&self, status: Status, lot_size: u32, carried: Self::Carried) -> Option<u32>
        ensures { result ≡ (rules self.now).units status lot_size carried };

    // How many defects relief allows in samples of so many units together.
    fn relief_limits(&self, units: u64) -> Option<Limits>
        ensures { result ≡ (rules self.now).limits units };

    // Judges: what the judge answers is what the rules say.
    fn decide(
        &self,
        status: Status,
        lot_size: u32,
        tally: Tally,
        carried: Self::Carried,
    ) -> (Verdict, Self::Carried)
        ensures judge { result ≡ Self.Judge.judged self.now status lot_size tally carried }
        ensures rules { result ≡ (rules self.now).judged status lot_size tally carried };

    // The verdict on a stretch's first portion, or a lot's first sample.
    fn first_verdict(&self, status: Status, lot_size: u32, tally: Tally) -> Verdict
    where
        Self::Carried: Drop,
        ensures { result ≡ (Self.Judge.judged self.now status lot_size tally ((rules self.now).starts status)).0 }
    {
        let (verdict, _carried) = self.judge(status, lot_size, tally, self.starting(status));
        verdict
    }
}
