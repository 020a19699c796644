// The slip of a lot that awaits its second sample: a token that is spent or handed in, and never dropped.
ghost use Rattle.std.specs.Prelude.{◌≡◌};
ghost use Rattle.line.specs.Slips.{shown_answer, SlipBack};

use inspection::refusal::Refusal;
use runs::standing::Reply;

// It has no `Drop`, so it cannot be let go; only this crate makes one or takes one apart.
pub(crate) struct Slip {
    pub(crate) number: u32,
}

// What a slip is refused with, and the slip, which the caller keeps.
pub(crate) struct Refused {
    pub(crate) refusal: Refusal,
    pub(crate) slip: Slip,
}

impl Slip {
    // The number of the lot's entry.
    pub(crate) fn number(&self) -> u32
        ensures { result ≡ self.now.number }
    {
        self.number
    }

    pub(crate) fn of(number: u32) -> Slip
        ensures { result.number ≡ number }
    {
        Slip { number }
    }

    pub(crate) fn spend(self) -> u32
        ensures { result ≡ self.number }
    {
        let Slip { number } = self;
        number
    }

    // An accepted call spends the slip that it was shown, and a refused one hands it back.
    pub(crate) fn spend_unless_refused(
        self,
        answer: Result<Reply, Refusal>,
    ) -> Result<Reply, Refused>
        ensures answer { shown_answer result ≡ answer }
        ensures back { SlipBack self result }
    {
        match answer {
            Ok(reply) => {
                self.spend();
                Ok(reply)
            }
            Err(refusal) => Err(Refused {
                refusal,
                slip: self,
            }),
        }
    }
}
