// Books: lists of entries with room for more, whatever they stand on.
#![tactic(auto)]

pub mod book;
pub mod counted;
pub mod places;
pub mod table;
pub mod text;
pub mod volumes;
