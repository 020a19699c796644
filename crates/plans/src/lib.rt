// Sampling plans for lots: how many units a lot's samples have, and how many defects they may have.
#![tactic(auto)]

pub mod finding;
pub mod plan_book;
pub mod rows;
