// Calls of a stationary line: lots, second samples and slips.
ghost use Rattle.runs.specs.History.{enter_lot, enter_second, hand_in, reissue as reissuing};
ghost use Rattle.runs.specs.Writing.{plan_rules};
ghost use Rattle.line.specs.Doing.{DoesCall};
ghost use Rattle.line.specs.Slips.{lot_answer, shown_answer, SlipGiven, SlipBack};

use crate::earlier::Earlier;
use crate::line::Line;
use crate::sample::Sample;
use crate::slip::{Refused, Slip};
use crate::taking::with_slip;
use books::book::Book;
use inspection::refusal::Refusal;
use inspection::status::Status;
use inspection::verdict::Verdict;
use regimes::judge::{Judge, Regime};
use regimes::stationary::Stationary;
use runs::standing::Reply;
use worksheet::scoring::score;

impl<B: Book> Line<Stationary, B> {
    // Scores the first sample and judges the lot by it. A lot answered W gives its slip.
    pub(crate) fn enter_lot(
        &mut self,
        size: u32,
        sheet: &[u8],
    ) -> Result<(Reply, Option<Slip>), Refusal>
        ensures call { DoesCall B.Book.entries B.Book.room (plan_rules self.old.regime.plan) (enter_lot size sheet.now) self.old (lot_answer result) self.new }
        ensures slip { SlipGiven result }
    {
        let units = self.lot_sample(self.book.room_left(), size)?;
        let tally = score(sheet, units)?;
        let taken = self.lot_taken(&Earlier::whole(&self.book), size, Sample { units, tally });
        let reply = self.settle(taken)?;
        Ok((reply, reply.slip.map(Slip::of)))
    }

    // Scores the second sample of the slip's lot, and judges the lot by both.
    pub(crate) fn enter_second(&mut self, slip: Slip, sheet: &[u8]) -> Result<Reply, Refused>
        ensures call { DoesCall B.Book.entries B.Book.room (plan_rules self.old.regime.plan) (enter_second slip.number sheet.now) self.old (shown_answer result) self.new }
        ensures back { SlipBack slip result }
    {
        let answer = self.take_second(slip.number(), sheet);
        slip.spend_unless_refused(answer)
    }

    pub(crate) fn take_second(&mut self, number: u32, sheet: &[u8]) -> Result<Reply, Refusal>
        ensures { DoesCall B.Book.entries B.Book.room (plan_rules self.old.regime.plan) (enter_second number sheet.now) self.old result self.new }
    {
        let units = self.second_sample(self.book.room_left(), number)?;
        let tally = score(sheet, units)?;
        let taken = self.second_taken(&Earlier::whole(&self.book), Sample { units, tally });
        self.settle(taken)
    }

    // Takes the slip back; its lot goes on waiting.
    pub(crate) fn hand_in(&mut self, slip: Slip) -> Result<Reply, Refused>
        ensures call { DoesCall B.Book.entries B.Book.room (plan_rules self.old.regime.plan) (hand_in slip.number) self.old (shown_answer result) self.new }
        ensures back { SlipBack slip result }
    {
        let answer = self.take_back(slip.number());
        slip.spend_unless_refused(answer)
    }

    fn take_back(&mut self, number: u32) -> Result<Reply, Refusal>
        ensures { DoesCall B.Book.entries B.Book.room (plan_rules self.old.regime.plan) (hand_in number) self.old result self.new }
    {
        self.check_hand_in(number)?;
        self.standing = with_slip(self.standing, false);
        Ok(Reply {
            verdict: Verdict::Undecided,
            status: self.standing.status,
            slip: None,
        })
    }

    // Gives the waiting lot's slip out again.
    pub(crate) fn reissue(&mut self) -> Result<(Reply, Option<Slip>), Refusal>
        ensures call { DoesCall B.Book.entries B.Book.room (plan_rules self.old.regime.plan) reissuing self.old (lot_answer result) self.new }
        ensures slip { SlipGiven result }
    {
        self.check_reissue()?;
        self.standing = with_slip(self.standing, true);
        let reply = Reply {
            verdict: Verdict::Undecided,
            status: self.standing.status,
            slip: self.waiting_number(),
        };
        Ok((reply, reply.slip.map(Slip::of)))
    }
}
