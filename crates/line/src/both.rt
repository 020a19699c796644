// Calls of either kind of line: relief and irregular notices, and how an accepted call is written down.
ghost use Rattle.runs.specs.History.{grant_relief, report_irregular};
ghost use Rattle.line.specs.Doing.{Does, DoesCall, booked};

use crate::earlier::Earlier;
use crate::line::Line;
use books::book::Book;
use inspection::refusal::Refusal;
use regimes::judge::{Judge, Regime};
use runs::standing::{Reply, Taken};

impl<R: Regime, B: Book> Line<R, B>
where
    R::Carried: Copy,
{
    // Writes the call's entry, if it has one, and stands as the call leaves the line.
    pub(crate) fn settle(&mut self, taken: Taken<R::Carried>) -> Result<Reply, Refusal>
        ensures { Does B.Book.entries B.Book.room (booked taken) self.old result self.new }
    {
        if let Some(entry) = taken.writes {
            self.book.add(entry)?;
        }
        self.standing = taken.standing;
        Ok(taken.reply)
    }

    pub(crate) fn grant_relief(&mut self) -> Result<Reply, Refusal>
        ensures { DoesCall B.Book.entries B.Book.room (R.Regime.rules self.old.regime) grant_relief self.old result self.new }
    {
        let room = self.book.room_left();
        self.check_relief(&Earlier::whole(&self.book), room)?;
        let taken = self.relief_taken();
        self.settle(taken)
    }

    pub(crate) fn report_irregular(&mut self) -> Result<Reply, Refusal>
        ensures { DoesCall B.Book.entries B.Book.room (R.Regime.rules self.old.regime) report_irregular self.old result self.new }
    {
        self.check_notice(self.book.room_left())?;
        let taken = self.notice_taken();
        self.settle(taken)
    }
}
