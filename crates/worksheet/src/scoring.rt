// Scoring a sheet in one pass.
ghost use Rattle.std.specs.Prelude.{◌≡◌, ℕ, ◌≤◌, length, IfOk, Some, None, MatchResult};
ghost use Rattle.inspection.specs.Tallies.{total_of};
ghost use Rattle.texts.specs.Pieces.{shown, pieces};
ghost use Rattle.worksheet.specs.Defects.{defect_of};
ghost use Rattle.worksheet.specs.Promises.{AtMostNine};
ghost use Rattle.worksheet.specs.Running.{counted as counting, entered, closed};
ghost use Rattle.worksheet.specs.Scores.{fault, score_of, tally_part};

use crate::defect::Defect;
use inspection::class::DefectClass;
use inspection::refusal::Refusal;
use inspection::tally::Tally;
use texts::lines::{Item, Lines};

// A sheet without a bad line: how many lines it has, and the tally of its sample.
#[derive(Clone, Copy, PartialEq, Eq, Debug)]
pub struct Scored {
    pub lines: usize,
    pub tally: Tally,
}

// How far scoring has come: the tally of the pairs that are done, and the pair of the last line with its worst class so far.
#[derive(Clone, Copy)]
struct Running {
    tally: Tally,
    last: Option<Defect>,
}

// One defect more; the tallies here stay far below their width.
fn counted(tally: Tally, class: DefectClass) -> Tally
    requires { total_of tally ≤ 99999 }
    ensures { result ≡ counting tally class }
{
    match class {
        DefectClass::Critical => Tally {
            critical: tally.critical + 1,
            ..tally
        },
        DefectClass::Major => Tally {
            major: tally.major + 1,
            ..tally
        },
        DefectClass::Minor => Tally {
            minor: tally.minor + 1,
            ..tally
        },
    }
}

impl Running {
    fn enter(self, defect: Defect) -> Running
        requires { total_of self.tally ≤ 99999 }
        ensures { result ≡ entered self.tally self.last defect }
    {
        match self.last {
            Some(last) if last.is_related_to(&defect) => Running {
                last: Some(Defect {
                    class: last.class.or_worse(defect.class),
                    ..last
                }),
                ..self
            },
            _ => Running {
                tally: self.close(),
                last: Some(defect),
            },
        }
    }

    fn close(self) -> Tally
        requires { total_of self.tally ≤ 99999 }
        ensures { result ≡ closed self.tally self.last }
    {
        match self.last {
            Some(last) => counted(self.tally, last.class),
            None => self.tally,
        }
    }
}

// The defect that a line says after the line of `last`, or what is wrong with it: the lowest number first.
fn check(item: &Item<'_>, units: u32, last: Option<Defect>) -> Result<Defect, Refusal>
    ensures { MatchResult result (λ d. (fault units last (shown item.now) ≡ None) × (defect_of (shown item.now) ≡ Some d)) (λ e. fault units last (shown item.now) ≡ Some e) }
{
    let line = item.line();
    let defect = Defect::of_item(item).ok_or(Refusal::SheetLineNotOfForm { line })?;
    if u32::from(defect.unit) > units {
        return Err(Refusal::UnitAboveSample { line });
    }
    if last.is_some_and(|last| defect.falls_below(&last)) {
        return Err(Refusal::PairFalls { line });
    }
    Ok(defect)
}

// What a sheet of so many sample units scores, or what is wrong with its first bad line.
pub fn read(sheet: &[u8], units: u32) -> Result<Scored, Refusal>
    ensures score { tally_part result ≡ score_of sheet.now units }
    ensures lines { IfOk result (λ w. w.lines ≡ length (pieces sheet.now)) }
    ensures few { AtMostNine units (tally_part result) }
{
    let mut lines = 0;
    let mut running = Running {
        tally: Tally::CLEAN,
        last: None,
    };
    for item in Lines::new(sheet) {
        running = running.enter(check(&item, units, running.last)?);
        lines = item.line();
    }
    Ok(Scored {
        lines,
        tally: running.close(),
    })
}

// The tally alone.
pub fn score(sheet: &[u8], units: u32) -> Result<Tally, Refusal>
    ensures answer { result ≡ score_of sheet.now units }
    ensures few { AtMostNine units result }
{
    Ok(read(sheet, units)?.tally)
}
