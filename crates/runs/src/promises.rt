// What holds of every list of calls, each as the contract of a function that has nothing to do.
ghost use Rattle.runs.specs.Examples.{WorkedDay, WorkedLot, WorkedTurns, WorkedLimits};
ghost use Rattle.runs.specs.LookingBack.{ReadBackAsForward};
ghost use Rattle.runs.specs.Promises.{OfEveryLine, AtEachCall, RefusedAsRuled, AnsweredAsRuled, RejectedOnOverrun, TurnedAsRuled, OfEachRun, BooksTheAccepted, TakenUp, Promised, SetOnABook, GoesOnEarned, Settled};
ghost use Rattle.runs.specs.Soundness.{SoundBySheets};
ghost use Rattle.runs.specs.Writing.{WritesWritable};

// Each call is refused with the refusal that the rules give it after the calls and answers before it, in their order of checking, and else not refused.
#[tactic(auto, using(crate::proofs::Promising::every_refused))]
pub fn every_call_is_refused_exactly_as_ruled()
    ensures { OfEveryLine (AtEachCall RefusedAsRuled) }
{}

// Verdict and slip of each call that is not refused; of a portion, that it gives no slip.
#[tactic(auto, using(crate::proofs::Promising::every_answered))]
pub fn every_accepted_call_is_answered_as_ruled()
    ensures { OfEveryLine (AtEachCall AnsweredAsRuled) }
{}

// Overruns are those of the rows of its stretch.
#[tactic(auto, using(crate::proofs::Promising::every_rejected))]
pub fn a_portion_is_rejected_exactly_where_a_class_overran()
    ensures { OfEveryLine (AtEachCall RejectedOnOverrun) }
{}

// At each article that is its spell's first to break the rule, and at each accepted relief and notice, to the status that the rules name.
#[tactic(auto, using(crate::proofs::Promising::every_turned))]
pub fn the_status_turns_exactly_where_the_rules_turn_it()
    ensures { OfEveryLine (AtEachCall TurnedAsRuled) }
{}

// In their order, and room is what is left.
#[tactic(auto, using(crate::proofs::Promising::every_booked))]
pub fn the_book_holds_exactly_the_accepted_entries()
    ensures { OfEveryLine (OfEachRun BooksTheAccepted) }
{}

// Replaying what a run wrote gives its standing back, but for a slip that is out; with none out every further list is answered alike.
#[tactic(auto, using(crate::proofs::Promising::every_taken_up))]
pub fn a_line_set_on_its_book_answers_alike()
    ensures { OfEveryLine (OfEachRun TakenUp) }
{}

// All of the above of every run, as one statement.
#[tactic(auto, using(crate::proofs::Promising::every_promised))]
pub fn every_run_keeps_the_promise()
    ensures { OfEveryLine (OfEachRun Promised) }
{}

// And a line on an unsound book refuses everything with the number of its first bad entry.
#[tactic(auto, using(crate::proofs::Promising::every_book))]
pub fn a_book_is_sound_exactly_where_a_run_wrote_it()
    ensures { OfEveryLine SetOnABook }
{}

// Entry by entry: each is one that the line, as the entries before it leave it, could have written by some call with some sheet; the number of an unsound book is that of the first which could not.
#[tactic(auto, using(crate::proofs::Soundness::sound_by_sheets))]
pub fn a_book_is_sound_exactly_where_the_line_could_have_written_it()
    ensures { SoundBySheets }
{}

// Whatever wrote the book.
#[tactic(auto, using(crate::proofs::Promising::every_set_on))]
pub fn a_line_on_a_sound_book_goes_on_as_an_earned_run()
    ensures { OfEveryLine GoesOnEarned }
{}

// The promise leaves nothing open: two earned histories of the same calls are equal, with equal books and room.
#[tactic(auto, using(crate::proofs::Promising::every_settled))]
pub fn the_calls_settle_every_answer()
    ensures { OfEveryLine Settled }
{}

// So a book refuses no entry of a line but for want of room.
#[tactic(auto, using(crate::proofs::Writing::writes_writable))]
pub fn what_a_line_writes_is_writable()
    ensures { WritesWritable }
{}

// For every list of entries, also ones that no line wrote.
pub fn articles_read_back_are_those_read_forward()
    ensures { ReadBackAsForward }
{}

// A period with an accepted portion and two rejected ones, which turn the status, and a call that is refused, from an empty book with room for 1,024 entries.
#[tactic(auto, using(crate::proofs::Examples::the_worked_day))]
pub fn the_worked_day()
    ensures { WorkedDay }
{}

// A lot that awaits its second sample, a lot refused while it waits, and the second sample by its slip.
#[tactic(auto, using(crate::proofs::Examples::the_worked_lot))]
pub fn the_worked_lot()
    ensures { WorkedLot }
{}

// Lots through all statuses and back: relief refused, granted and ended by a rejected lot and by a notice, inspection tightened and normal again; and relief by its limits.
pub fn the_worked_statuses()
    ensures turns { WorkedTurns }
    ensures limits { WorkedLimits }
{}
