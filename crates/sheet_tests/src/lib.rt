// Tests of the worksheet, in a crate of their own.
#![tactic(auto)]

#[cfg(test)]
mod items;
#[cfg(test)]
mod letters;
#[cfg(test)]
mod sheets;
