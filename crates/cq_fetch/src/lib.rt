//! Gets of messages whose records stand in shared files: located in one turn, read in the next, left in a third.
#![tactic(auto)]

mod fetches;

pub use fetches::{Fetches, Phase};

#[cfg(test)]
mod tests;
