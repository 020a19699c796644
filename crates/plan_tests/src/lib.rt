// Tests of the plan book, in a crate of their own.
#![tactic(auto)]

#[cfg(test)]
mod fresh;
#[cfg(test)]
mod lines;
#[cfg(test)]
mod reading;
