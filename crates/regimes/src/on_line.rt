// The on-line regime: portions of production, judged by three running values.
ghost use Rattle.std.specs.Prelude.{◌≡◌};
ghost use Rattle.inspection.specs.Classes.{by_class, some_class};
ghost use Rattle.regimes.specs.Portions.{value_reached, is_over, value_held, portion_judged, on_line_rules};
ghost use Rattle.inspection.specs.declared.class.JudgedClass.TheVariants.{Critical, Major, Total};

use crate::cusum::{Cusum, Values};
use crate::judge::{Judge, Limits, Regime};
use inspection::class::{JudgedClass, PerClass};
use inspection::status::Status;
use inspection::tally::Tally;
use inspection::verdict::Verdict;

#[derive(Clone, Copy)]
pub struct OnLine;

// The value of each class, by what gives it.
fn values_by<F: Fn(JudgedClass) -> u32>(value: F) -> Values
    requires { F.IsAlwaysCallable value }
    ensures critical { F.post value Critical result.critical }
    ensures major { F.post value Major result.major }
    ensures total { F.post value Total result.total }
{
    PerClass {
        critical: value(JudgedClass::Critical),
        major: value(JudgedClass::Major),
        total: value(JudgedClass::Total),
    }
}

// A portion under judgement, with the values before it.
#[derive(Clone, Copy)]
struct Portion {
    status: Status,
    tally: Tally,
    values: Values,
}

impl Portion {
    // The value of the class after the portion, before it is held. It stops at 0.
    fn reached(&self, class: JudgedClass) -> u64
        ensures { result ≡ value_reached self.now.status self.now.tally self.now.values class }
    {
        let cusum = Cusum::of(class, self.status);
        let before = u64::from(self.values.of(class));
        let added = 100 * class.count(&self.tally);
        (before + added).saturating_sub(u64::from(cusum.tolerance))
    }

    fn is_over(&self, class: JudgedClass) -> bool
        ensures { result ≡ is_over self.now.status self.now.tally self.now.values class }
    {
        self.reached(class) > u64::from(Cusum::of(class, self.status).limit)
    }

    // The value that is carried on: the one reached, held at the limit.
    fn held(&self, class: JudgedClass) -> u32
        ensures { result ≡ value_held self.now.status self.now.tally self.now.values class }
    {
        let limit = Cusum::of(class, self.status).limit;
        self.reached(class).min(u64::from(limit)) as u32
    }

    fn some_over(&self) -> bool
        ensures { result ≡ some_class (is_over self.now.status self.now.tally self.now.values) }
    {
        JudgedClass::ALL.iter().any(|class| self.is_over(*class))
    }

    fn values_held(&self) -> Values
        ensures { result ≡ by_class (value_held self.now.status self.now.tally self.now.values) }
    {
        values_by(|class| self.held(class))
    }
}

impl Judge for OnLine {
    type Carried = Values;

    ghost judged = { λ _. on_line_rules.judged };

    // The values that are compared are the ones reached; they are held afterwards.
    fn judge(
        &self,
        status: Status,
        lot_size: u32,
        tally: Tally,
        carried: Values,
    ) -> (Verdict, Values) {
        let portion = Portion {
            status,
            tally,
            values: carried,
        };
        let verdict = if portion.some_over() {
            Verdict::Rejected
        } else {
            Verdict::Accepted
        };
        (verdict, portion.values_held())
    }
}

impl Regime for OnLine {
    const WINDOW: u32 = 40;

    const CAP: u32 = 1;

    ghost rules = { λ _. on_line_rules };

    fn window_length(&self) -> u32 {
        Self::WINDOW
    }

    fn most_rejected(&self) -> u32 {
        Self::CAP
    }

    fn judges_portions(&self) -> bool {
        true
    }

    fn starting(&self, status: Status) -> Values {
        values_by(|class| Cusum::of(class, status).start)
    }

    fn sample_units(&self, status: Status, lot_size: u32, carried: Values) -> Option<u32> {
        Some(match status {
            Status::Normal => 25,
            Status::Tightened => 50,
            Status::Reduced => 13,
        })
    }

    fn relief_limits(&self, units: u64) -> Option<Limits> {
        Some(PerClass {
            critical: 0,
            major: 9,
            total: 54,
        })
    }

    fn decide(
        &self,
        status: Status,
        lot_size: u32,
        tally: Tally,
        carried: Values,
    ) -> (Verdict, Values) {
        self.judge(status, lot_size, tally, carried)
    }
}
