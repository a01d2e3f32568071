//! The 256 queues of a node, with marks of those that have something to do.
#![tactic(auto)]

mod marks;
mod queues;

pub use marks::Marks;
pub use queues::NodeQueues;

#[cfg(test)]
mod tests;
