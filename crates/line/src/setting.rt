// Setting a line on a book: its entries are replayed, each as the call that would have written it.
ghost use Rattle.std.specs.Prelude.{◌≡◌, ◌<◌, [], length, take, Some};
ghost use Rattle.runs.specs.History.{open_period, enter_portion, end_period, enter_lot, enter_second, grant_relief, report_irregular};
ghost use Rattle.runs.specs.Lines.{due_number};
ghost use Rattle.runs.specs.Runs.{unsound_at, replay_one, replay};
ghost use Rattle.line.specs.Replaying.{sample_showing, left_by, retaken_call, retaken_by, retaken};

use crate::earlier::Earlier;
use crate::line::Line;
use crate::sample::Sample;
use crate::taking::with_slip;
use books::book::Book;
use entries::entry::Entry;
use inspection::kind::Kind;
use inspection::status::Status;
use inspection::tally::Tally;
use regimes::judge::{Judge, Regime};
use runs::standing::{Standing, Taken};

// Where the call left the line, if it wrote the entry.
fn left_by<C: Copy>(entry: Entry, taken: Option<Taken<C>>, bad: Standing<C>) -> Standing<C>
    ensures { result ≡ left_by entry taken bad }
{
    match taken {
        Some(taken) if taken.writes == Some(entry) => with_slip(taken.standing, false),
        _ => bad,
    }
}

fn unsound_at<C: Copy>(number: u32, standing: Standing<C>) -> Standing<C>
    ensures { result ≡ unsound_at number standing }
{
    let unsound = Standing {
        unsound: Some(number),
        ..standing
    };
    with_slip(unsound, false)
}

// A sample of so many units that showed the tally, where some sheet could.
fn shown(units: u32, tally: Tally) -> Option<Sample>
    ensures { result ≡ sample_showing units tally }
{
    let sample = Sample { units, tally };
    sample.can_be().then_some(sample)
}

impl<R: Regime, B: Book> Line<R, B>
where
    R::Carried: Copy,
{
    fn open_retaken(&self) -> Option<Taken<R::Carried>>
        ensures { result ≡ retaken_call (R.Regime.rules self.now.regime) open_period self.now.standing [] }
    {
        self.check_open(1).ok()?;
        Some(self.open_taken())
    }

    fn end_retaken(&self) -> Option<Taken<R::Carried>>
        ensures { result ≡ retaken_call (R.Regime.rules self.now.regime) end_period self.now.standing [] }
    {
        self.check_end(1).ok()?;
        Some(self.end_taken())
    }

    fn relief_retaken(&self, earlier: &Earlier<'_, B>) -> Option<Taken<R::Carried>>
        ensures { result ≡ retaken_call (R.Regime.rules self.now.regime) grant_relief self.now.standing earlier.now }
    {
        self.check_relief(earlier, 1).ok()?;
        Some(self.relief_taken())
    }

    fn notice_retaken(&self) -> Option<Taken<R::Carried>>
        ensures { result ≡ retaken_call (R.Regime.rules self.now.regime) report_irregular self.now.standing [] }
    {
        self.check_notice(1).ok()?;
        Some(self.notice_taken())
    }

    fn portion_retaken(&self, earlier: &Earlier<'_, B>, entry: Entry) -> Option<Taken<R::Carried>>
        ensures { result ≡ retaken_by (R.Regime.rules self.now.regime) (Some (enter_portion [])) entry self.now.standing earlier.now }
    {
        let units = self.portion_sample(1).ok()?;
        let sample = shown(units, entry.tally)?;
        Some(self.portion_taken(earlier, sample))
    }

    fn lot_retaken(&self, earlier: &Earlier<'_, B>, entry: Entry) -> Option<Taken<R::Carried>>
        ensures { result ≡ retaken_by (R.Regime.rules self.now.regime) (Some (enter_lot entry.lot_size [])) entry self.now.standing earlier.now }
    {
        let units = self.lot_sample(1, entry.lot_size).ok()?;
        let sample = shown(units, entry.tally)?;
        Some(self.lot_taken(earlier, entry.lot_size, sample))
    }

    fn second_retaken(&self, earlier: &Earlier<'_, B>, entry: Entry) -> Option<Taken<R::Carried>>
        ensures { result ≡ retaken_by (R.Regime.rules self.now.regime) (Some (enter_second (due_number self.now.standing.waiting) [])) entry self.now.standing earlier.now }
    {
        let number = self.waiting_number()?;
        let units = self.second_sample(1, number).ok()?;
        let sample = shown(units, entry.tally)?;
        Some(self.second_taken(earlier, sample))
    }

    // What the call comes to that would have written the entry, where the line serves and takes it.
    fn retaken(&self, earlier: &Earlier<'_, B>, entry: Entry) -> Option<Taken<R::Carried>>
        ensures { result ≡ retaken (R.Regime.rules self.now.regime) entry self.now.standing earlier.now }
    {
        match (entry.kind, self.regime.judges_portions()) {
            (Kind::PeriodOpened, true) => self.open_retaken(),
            (Kind::Portion, true) => self.portion_retaken(earlier, entry),
            (Kind::PeriodEnded, true) => self.end_retaken(),
            (Kind::Lot, false) => self.lot_retaken(earlier, entry),
            (Kind::SecondSample, false) => self.second_retaken(earlier, entry),
            (Kind::Relief, _) => self.relief_retaken(earlier),
            (Kind::IrregularNotice, _) => self.notice_retaken(),
            _ => None,
        }
    }

    // One more entry, after the entries up to the number `before`. A call that wants the slip has it.
    fn replay_entry(&mut self, before: u32, entry: Entry)
        requires { before < length (B.Book.entries self.old.book) }
        ensures standing { self.new.standing ≡ replay_one (R.Regime.rules self.old.regime) self.old.standing (take before (B.Book.entries self.old.book)) entry }
        ensures regime { self.new.regime ≡ self.old.regime }
        ensures book { self.new.book ≡ self.old.book }
    {
        if self.standing.unsound.is_some() {
            return;
        }
        let bad = unsound_at(before + 1, self.standing);
        self.standing = with_slip(self.standing, true);
        self.standing = left_by(
            entry,
            self.retaken(&Earlier::of(&self.book, before), entry),
            bad,
        );
    }

    // Sets the line on the book: it stands as its entries leave it, or unsound at the first that it would not have written.
    pub(crate) fn set(regime: R, book: B) -> Line<R, B>
        ensures standing { result.standing ≡ replay (R.Regime.rules regime) (B.Book.entries book) }
        ensures regime { result.regime ≡ regime }
        ensures book { result.book ≡ book }
    {
        let standing = Standing {
            status: Status::Normal,
            spell: 0,
            period: None,
            waiting: None,
            carried: regime.starting(Status::Normal),
            unsound: None,
        };
        let mut line = Line {
            regime,
            book,
            standing,
        };
        for before in 0..line.book.count() {
            if let Some(entry) = line.book.entry(before + 1) {
                line.replay_entry(before, entry);
            }
        }
        line
    }

    // Gives the regime and the book back.
    pub(crate) fn into_parts(self) -> (R, B)
        ensures { (result.0 ≡ self.regime) × (result.1 ≡ self.book) }
    {
        let Line {
            regime,
            book,
            standing: _,
        } = self;
        (regime, book)
    }
}
