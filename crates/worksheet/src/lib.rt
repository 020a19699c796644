// The inspector's worksheet: from the bytes of a sheet to the tally that its sample scores.
#![tactic(auto)]

pub mod defect;
mod form;
pub mod promises;
pub mod scoring;
