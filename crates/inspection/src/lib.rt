// The words of inspection: what an inspector, a shift lead, a quality office and a buyer call things, and the numbers of the refusals.
#![tactic(auto)]

pub mod class;
pub mod kind;
pub mod letter;
pub mod refusal;
pub mod status;
pub mod tally;
pub mod verdict;
