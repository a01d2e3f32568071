//! The entries of an index: what a queue keeps on disk of each of its messages.
#![tactic(auto)]

mod entry;

pub use entry::{ENTRY_BYTES, Entry, EntryKind, PRESENT, Seen, broken_at, decode, encode};

#[cfg(test)]
mod tests;
