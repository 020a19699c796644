// What a line does with each call, and what whole lists of calls earn.
#![tactic(auto)]

pub mod promises;
pub mod standing;
