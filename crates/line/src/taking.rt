// What each call comes to where it is not refused, and what refuses it, from a line as it stands after the earlier entries.
ghost use Rattle.std.specs.Prelude.{◌≡◌, false, [], ◌∷◌, not, is_some, nat_le, if◌then◌else◌, Some, None};
ghost use Rattle.std.specs.Option.{ok_or};
ghost use Rattle.inspection.specs.declared.refusal.Refusal.TheVariants as refused;
ghost use Rattle.books.specs.Books.{answered};
ghost use Rattle.runs.specs.History.{first, is_rejected, open_period, end_period, hand_in, reissue as reissuing, grant_relief, report_irregular};
ghost use Rattle.runs.specs.Lines.{in_window, bare, fullness, has_slip, with_slip, due_size, slip_of, one_more, sample, told, turned_to, portion_taken};
ghost use Rattle.runs.specs.Spells.{turned as turning};
ghost use Rattle.line.specs.Seeing.{seen_of, seen_refusal};
ghost use Rattle.line.specs.Doing.{checked, taken_by, judged_entry, lot_decided, lot_taken_at, lot_awaited, second_taken_at, article_noted, turned_by, unsound_refusal, portion_sample, lot_sample, second_sample};

use crate::earlier::Earlier;
use crate::line::Line;
use crate::sample::Sample;
use crate::seen::Seen;
use books::book::Book;
use entries::entry::Entry;
use inspection::kind::Kind;
use inspection::refusal::Refusal;
use inspection::status::Status;
use inspection::tally::Tally;
use inspection::verdict::Verdict;
use regimes::judge::{Judge, Regime};
use runs::standing::{Reply, Standing, Taken, WaitingLot};

// An entry without numbers.
fn bare_entry(kind: Kind, status: Status, verdict: Verdict) -> Entry
    ensures { result ≡ bare kind status verdict }
{
    Entry {
        kind,
        status,
        verdict,
        lot_size: 0,
        units: 0,
        tally: Tally::CLEAN,
    }
}

// A call that writes the entry and gives no slip: it answers the entry's verdict, and the status that it leaves.
fn written<C: Copy>(entry: Entry, standing: Standing<C>) -> Taken<C>
    ensures { result ≡ record { reply = told entry.verdict standing.status None; standing = standing; writes = Some entry } }
{
    Taken {
        reply: Reply {
            verdict: entry.verdict,
            status: standing.status,
            slip: None,
        },
        standing,
        writes: Some(entry),
    }
}

// The waiting lot, where one waits, with its slip out or not.
pub(crate) fn with_slip<C: Copy>(standing: Standing<C>, slip_out: bool) -> Standing<C>
    ensures { result ≡ with_slip slip_out standing }
{
    Standing {
        waiting: standing.waiting.map(|lot| WaitingLot { slip_out, ..lot }),
        ..standing
    }
}

// Six portions or more make a period full.
fn period_verdict(period: Option<u32>) -> Verdict
    ensures { result ≡ fullness period }
{
    match period {
        Some(portions) if portions >= 6 => Verdict::Full,
        _ => Verdict::Brief,
    }
}

fn one_more(period: Option<u32>) -> Option<u32>
    ensures { result ≡ one_more period }
{
    period.map(|portions| portions.saturating_add(1))
}

fn turned(status: Status) -> Status
    ensures { result ≡ turning status }
{
    match status {
        Status::Normal => Status::Tightened,
        Status::Tightened | Status::Reduced => Status::Normal,
    }
}

fn check_room(room: u32) -> Result<(), Refusal>
    ensures { result ≡ answered (first ((nat_le room 0, refused.NoRoom) ∷ []) None) }
{
    if room == 0 {
        return Err(Refusal::NoRoom);
    }
    Ok(())
}

impl<R: Regime, B: Book> Line<R, B>
where
    R::Carried: Copy,
{
    fn check_sound(&self) -> Result<(), Refusal>
        ensures { result ≡ answered (unsound_refusal self.now.standing.unsound) }
    {
        if let Some(entry) = self.standing.unsound {
            return Err(Refusal::BookUnsound {
                entry: entry as usize,
            });
        }
        Ok(())
    }

    pub(crate) fn check_open(&self, room: u32) -> Result<(), Refusal>
        ensures { result ≡ checked (R.Regime.rules self.now.regime) open_period self.now.standing [] room }
    {
        self.check_sound()?;
        if self.standing.period.is_some() {
            return Err(Refusal::PeriodOpenAlready);
        }
        check_room(room)
    }

    pub(crate) fn open_taken(&self) -> Taken<R::Carried>
        ensures { result ≡ taken_by (R.Regime.rules self.now.regime) open_period self.now.standing [] }
    {
        let status = self.standing.status;
        let standing = Standing {
            period: Some(0),
            carried: self.regime.starting(status),
            ..self.standing
        };
        written(
            bare_entry(Kind::PeriodOpened, status, Verdict::Undecided),
            standing,
        )
    }

    pub(crate) fn check_end(&self, room: u32) -> Result<(), Refusal>
        ensures { result ≡ checked (R.Regime.rules self.now.regime) end_period self.now.standing [] room }
    {
        self.check_sound()?;
        if self.standing.period.is_none() {
            return Err(Refusal::NoPeriodOpen);
        }
        check_room(room)
    }

    pub(crate) fn end_taken(&self) -> Taken<R::Carried>
        ensures { result ≡ taken_by (R.Regime.rules self.now.regime) end_period self.now.standing [] }
    {
        let verdict = period_verdict(self.standing.period);
        let standing = Standing {
            period: None,
            ..self.standing
        };
        written(
            bare_entry(Kind::PeriodEnded, self.standing.status, verdict),
            standing,
        )
    }

    // The units of the next sample, of a lot of the size.
    fn next_units(&self, size: u32) -> Result<u32, Refusal>
        ensures { result ≡ ok_or (sample (R.Regime.rules self.now.regime) self.now.standing size) refused.LotSizeOutOfRange }
    {
        self.regime
            .sample_units(self.standing.status, size, self.standing.carried)
            .ok_or(Refusal::LotSizeOutOfRange)
    }

    // The units of a portion's sample.
    pub(crate) fn portion_sample(&self, room: u32) -> Result<u32, Refusal>
        ensures { result ≡ portion_sample (R.Regime.rules self.now.regime) self.now.standing room }
    {
        self.check_sound()?;
        if self.standing.period.is_none() {
            return Err(Refusal::NoPeriodOpen);
        }
        check_room(room)?;
        self.next_units(0)
    }

    // A new spell with the status.
    fn new_spell(&self, status: Status) -> Standing<R::Carried>
        ensures { result ≡ turned_to (R.Regime.rules self.now.regime) status self.now.standing }
    {
        Standing {
            status,
            spell: 0,
            carried: self.regime.starting(status),
            ..self.standing
        }
    }

    // The standing after an article with the verdict, where the judge carries `carried`: a new spell where the status turns.
    #[tactic(auto, using(crate::proofs::Noted::noted_turned, crate::proofs::Noted::noted_kept))]
    fn after_article(
        &self,
        earlier: &Earlier<'_, B>,
        verdict: Verdict,
        carried: R::Carried,
    ) -> Standing<R::Carried>
        ensures { result ≡ article_noted (R.Regime.rules self.now.regime) self.now.standing earlier.now (is_rejected verdict) carried }
    {
        if self.turns(earlier, verdict) {
            self.new_spell(turned(self.standing.status))
        } else {
            Standing {
                spell: self.standing.spell.saturating_add(1),
                carried,
                ..self.standing
            }
        }
    }

    // The entry of a sample of a lot of the size, with the judge's verdict, and what the judge carries after it.
    fn judged(&self, kind: Kind, size: u32, sample: Sample) -> (Entry, R::Carried)
        ensures { result ≡ judged_entry kind size sample ((R.Regime.rules self.now.regime).judged self.now.standing.status size sample.tally self.now.standing.carried) self.now.standing }
    {
        let Sample { units, tally } = sample;
        let Standing {
            status,
            carried,
            ..
        } = self.standing;
        let (verdict, carried) = self.regime.decide(status, size, tally, carried);
        let entry = Entry {
            kind,
            status,
            verdict,
            lot_size: size,
            units,
            tally,
        };
        (entry, carried)
    }

    pub(crate) fn portion_taken(
        &self,
        earlier: &Earlier<'_, B>,
        sample: Sample,
    ) -> Taken<R::Carried>
        ensures { result ≡ portion_taken (R.Regime.rules self.now.regime) sample.units sample.tally ((R.Regime.rules self.now.regime).judged self.now.standing.status 0 sample.tally self.now.standing.carried) self.now.standing earlier.now }
    {
        let (entry, carried) = self.judged(Kind::Portion, 0, sample);
        let standing = Standing {
            period: one_more(self.standing.period),
            ..self.after_article(earlier, entry.verdict, carried)
        };
        written(entry, standing)
    }

    // The units of a lot's first sample.
    pub(crate) fn lot_sample(&self, room: u32, size: u32) -> Result<u32, Refusal>
        ensures { result ≡ lot_sample (R.Regime.rules self.now.regime) self.now.standing room size }
    {
        self.check_sound()?;
        self.check_no_lot()?;
        check_room(room)?;
        self.next_units(size)
    }

    fn check_no_lot(&self) -> Result<(), Refusal>
        ensures { result ≡ answered (first ((is_some self.now.standing.waiting, refused.LotAwaits) ∷ []) None) }
    {
        if self.standing.waiting.is_some() {
            return Err(Refusal::LotAwaits);
        }
        Ok(())
    }

    pub(crate) fn relief_taken(&self) -> Taken<R::Carried>
        ensures { result ≡ taken_by (R.Regime.rules self.now.regime) grant_relief self.now.standing [] }
    {
        self.turned_to(Kind::Relief, Status::Reduced)
    }

    pub(crate) fn notice_taken(&self) -> Taken<R::Carried>
        ensures { result ≡ taken_by (R.Regime.rules self.now.regime) report_irregular self.now.standing [] }
    {
        self.turned_to(Kind::IrregularNotice, Status::Normal)
    }

    // The status turned by relief or notice.
    fn turned_to(&self, kind: Kind, status: Status) -> Taken<R::Carried>
        ensures { result ≡ turned_by (R.Regime.rules self.now.regime) kind status self.now.standing }
    {
        let entry = bare_entry(kind, self.standing.status, Verdict::Undecided);
        written(entry, self.new_spell(status))
    }

    pub(crate) fn check_notice(&self, room: u32) -> Result<(), Refusal>
        ensures { result ≡ checked (R.Regime.rules self.now.regime) report_irregular self.now.standing [] room }
    {
        self.check_sound()?;
        self.check_no_lot()?;
        check_room(room)?;
        if self.standing.status != Status::Reduced {
            return Err(Refusal::NoticeOffReduced);
        }
        Ok(())
    }

    pub(crate) fn lot_taken(
        &self,
        earlier: &Earlier<'_, B>,
        size: u32,
        sample: Sample,
    ) -> Taken<R::Carried>
        ensures { result ≡ lot_taken_at (R.Regime.rules self.now.regime) size sample.units sample.tally self.now.standing earlier.now }
    {
        let (entry, carried) = self.judged(Kind::Lot, size, sample);
        if entry.verdict == Verdict::Awaited {
            return self.lot_awaited(earlier, carried, entry);
        }
        self.lot_decided(earlier, carried, entry)
    }

    // The lot is judged by the entry, and none waits after it.
    fn lot_decided(
        &self,
        earlier: &Earlier<'_, B>,
        carried: R::Carried,
        entry: Entry,
    ) -> Taken<R::Carried>
        ensures { result ≡ lot_decided (R.Regime.rules self.now.regime) entry carried self.now.standing earlier.now }
    {
        let standing = Standing {
            waiting: None,
            ..self.after_article(earlier, entry.verdict, carried)
        };
        written(entry, standing)
    }

    // The lot waits under the number of its entry, and its slip is out.
    fn lot_awaited(
        &self,
        earlier: &Earlier<'_, B>,
        carried: R::Carried,
        entry: Entry,
    ) -> Taken<R::Carried>
        ensures { result ≡ lot_awaited (R.Regime.rules self.now.regime) entry.lot_size carried (Some entry) self.now.standing earlier.now }
    {
        let number = earlier.next_number();
        let size = entry.lot_size;
        let standing = Standing {
            waiting: Some(WaitingLot {
                number,
                size,
                slip_out: true,
            }),
            carried,
            ..self.standing
        };
        Taken {
            reply: Reply {
                verdict: Verdict::Awaited,
                status: standing.status,
                slip: Some(number),
            },
            standing,
            writes: Some(entry),
        }
    }

    fn has_slip(&self, number: u32) -> bool
        ensures { result ≡ has_slip number self.now.standing.waiting }
    {
        self.standing
            .waiting
            .is_some_and(|lot| lot.slip_out && lot.number == number)
    }

    // The size of the waiting lot.
    fn waiting_size(&self) -> u32
        ensures { result ≡ due_size self.now.standing.waiting }
    {
        self.standing.waiting.map_or(0, |lot| lot.size)
    }

    // The number of the waiting lot.
    pub(crate) fn waiting_number(&self) -> Option<u32>
        ensures { result ≡ slip_of self.now.standing.waiting }
    {
        self.standing.waiting.map(|lot| lot.number)
    }

    // The units of the second sample of the lot whose slip has the number.
    pub(crate) fn second_sample(&self, room: u32, number: u32) -> Result<u32, Refusal>
        ensures { result ≡ second_sample (R.Regime.rules self.now.regime) self.now.standing room number }
    {
        self.check_sound()?;
        if !self.has_slip(number) {
            return Err(Refusal::NoLotAwaits);
        }
        check_room(room)?;
        self.next_units(self.waiting_size())
    }

    pub(crate) fn second_taken(&self, earlier: &Earlier<'_, B>, sample: Sample) -> Taken<R::Carried>
        ensures { result ≡ second_taken_at (R.Regime.rules self.now.regime) sample.units sample.tally self.now.standing earlier.now }
    {
        let (entry, carried) = self.judged(Kind::SecondSample, self.waiting_size(), sample);
        self.lot_decided(earlier, carried, entry)
    }

    pub(crate) fn check_hand_in(&self, number: u32) -> Result<(), Refusal>
        ensures { result ≡ checked (R.Regime.rules self.now.regime) (hand_in number) self.now.standing [] 0 }
    {
        self.check_sound()?;
        if !self.has_slip(number) {
            return Err(Refusal::NoLotAwaits);
        }
        Ok(())
    }

    pub(crate) fn check_reissue(&self) -> Result<(), Refusal>
        ensures { result ≡ checked (R.Regime.rules self.now.regime) reissuing self.now.standing [] 0 }
    {
        self.check_sound()?;
        match self.standing.waiting {
            None => Err(Refusal::NoLotAwaits),
            Some(lot) if lot.slip_out => Err(Refusal::SlipIsOut),
            Some(_) => Ok(()),
        }
    }

    // Relief by what is seen of the last window.
    fn check_seen(&self, seen: Seen) -> Result<(), Refusal>
        ensures { result ≡ answered (seen_refusal (R.Regime.rules self.now.regime) seen) }
    {
        if seen.rejected > self.regime.most_rejected() {
            return Err(Refusal::TooManyRejected);
        }
        let Some(limits) = self.regime.relief_limits(seen.units) else {
            return Err(Refusal::TooFewUnits);
        };
        if seen.is_above(&limits) {
            return Err(Refusal::DefectsAboveLimit);
        }
        Ok(())
    }

    #[tactic(auto, using(crate::proofs::Noted::last_last))]
    fn check_window(&self, earlier: &Earlier<'_, B>) -> Result<(), Refusal>
        ensures { result ≡ answered (seen_refusal (R.Regime.rules self.now.regime) (seen_of (in_window (R.Regime.rules self.now.regime) self.now.standing earlier.now))) }
    {
        let most = self.regime.window_length().min(self.standing.spell);
        self.check_seen(earlier.look_back(most))
    }

    pub(crate) fn check_relief(&self, earlier: &Earlier<'_, B>, room: u32) -> Result<(), Refusal>
        ensures { result ≡ checked (R.Regime.rules self.now.regime) grant_relief self.now.standing earlier.now room }
    {
        self.check_sound()?;
        self.check_no_lot()?;
        check_room(room)?;
        if self.standing.status != Status::Normal {
            return Err(Refusal::ReliefOffNormal);
        }
        if self.standing.spell < self.regime.window_length() {
            return Err(Refusal::SpellTooShort);
        }
        self.check_window(earlier)
    }
}
