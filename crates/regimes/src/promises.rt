// What holds of every portion and every lot, each as the contract of a function that has nothing to do.
#![tactic(auto, using(crate::proofs::Samples::judged_by_numbers, crate::proofs::Stretches::judged_by_rows, crate::proofs::Stretches::values_within, crate::proofs::More::more_is_no_better))]

ghost use Rattle.regimes.specs.Cases.{EightCases};
ghost use Rattle.regimes.specs.Promises.{StartsWithin, AllJudgedByRows, ValuesWithin, AllJudgedByNumbers, MoreIsNoBetter};

// In the whole table no start is above its limit.
pub fn every_start_is_within_its_limit()
    ensures { StartsWithin }
{}

// Of every stretch: a portion is rejected exactly where some row of portions that ends at it has more defects of a class than it is allowed.
pub fn portions_are_rejected_exactly_where_a_row_overruns()
    ensures { AllJudgedByRows }
{}

// After every portion, whatever the values and the tally were.
pub fn values_stay_within_the_limit()
    ensures { ValuesWithin }
{}

// By every row that a plan book keeps: what accepts, rejects and leaves open a first sample, and what accepts both together.
pub fn lots_are_judged_by_their_numbers()
    ensures { AllJudgedByNumbers }
{}

// Of portions, of first samples and of both samples together.
pub fn more_defects_never_turn_a_rejection_into_an_acceptance()
    ensures { MoreIsNoBetter }
{}

// Eight cases that tell the rules from their likely mistakes, with their values.
pub fn the_eight_marked_cases()
    ensures { EightCases }
{}
