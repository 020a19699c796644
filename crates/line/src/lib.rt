// A line over any regime and any book. Setting it and its calls are proved one by one; they become public with the promise over whole lists of calls.
#![tactic(auto)]

mod both;
mod earlier;
pub mod line;
mod looking;
mod lots;
mod portions;
mod sample;
mod seen;
mod setting;
mod slip;
mod taking;
