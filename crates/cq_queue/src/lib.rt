//! A queue: its messages in memory, and its segments, each an index and a small store, on a disk.
#![tactic(auto)]

mod commit;
mod error;
mod leaving;
mod numbers;
mod queue;
mod segment;
mod segments;

pub use error::QueueError;
pub use queue::QueueCore;
pub use segment::QueueSegment;
pub use segments::Segments;

#[cfg(test)]
mod tests;
