// Plan books read from text.
#![tactic(auto)]

mod bounds;
pub mod reading;
pub mod row;
pub mod row_line;
