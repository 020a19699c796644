// Calls of an on-line line: periods and portions.
ghost use Rattle.regimes.specs.Portions.{on_line_rules};
ghost use Rattle.runs.specs.History.{open_period, enter_portion, end_period};
ghost use Rattle.line.specs.Doing.{DoesCall};

use crate::earlier::Earlier;
use crate::line::Line;
use crate::sample::Sample;
use books::book::Book;
use inspection::refusal::Refusal;
use regimes::judge::{Judge, Regime};
use regimes::on_line::OnLine;
use runs::standing::Reply;
use worksheet::scoring::score;

impl<B: Book> Line<OnLine, B> {
    pub(crate) fn open_period(&mut self) -> Result<Reply, Refusal>
        ensures { DoesCall B.Book.entries B.Book.room on_line_rules open_period self.old result self.new }
    {
        self.check_open(self.book.room_left())?;
        let taken = self.open_taken();
        self.settle(taken)
    }

    // Scores the sheet, and judges the portion by it.
    pub(crate) fn enter_portion(&mut self, sheet: &[u8]) -> Result<Reply, Refusal>
        ensures { DoesCall B.Book.entries B.Book.room on_line_rules (enter_portion sheet.now) self.old result self.new }
    {
        let units = self.portion_sample(self.book.room_left())?;
        let tally = score(sheet, units)?;
        let taken = self.portion_taken(&Earlier::whole(&self.book), Sample { units, tally });
        self.settle(taken)
    }

    pub(crate) fn end_period(&mut self) -> Result<Reply, Refusal>
        ensures { DoesCall B.Book.entries B.Book.room on_line_rules end_period self.old result self.new }
    {
        self.check_end(self.book.room_left())?;
        let taken = self.end_taken();
        self.settle(taken)
    }
}
