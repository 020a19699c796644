// The entries of a book, and the line of text of each.
#![tactic(auto)]

pub mod entry;
pub mod line;
