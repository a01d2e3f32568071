//! Words that show an early acknowledgement: 64 for each client. A drop and a look take no lock and no memory.
#![tactic(auto)]

mod client;
mod looker;
#[cfg(test)]
mod tests;
mod view;
mod words;

pub use looker::Looker;
pub use words::{MadeWords, Owner, WordSeats, Words, close_words};
