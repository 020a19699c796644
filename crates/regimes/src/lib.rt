// How portions and lots are judged: what a judge and a regime are, the on-line regime and the stationary one.
#![tactic(auto)]

pub mod cusum;
pub mod judge;
pub mod on_line;
pub mod promises;
pub mod stationary;
pub mod stretch;
