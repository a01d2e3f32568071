//! What happened on a node, as its clients were told, without a queue and without a disk: the journal, each client's account, and
//! which published messages aren't safe in each of their queues yet.
#![tactic(auto)]

mod history;

pub use history::{History, Unpublished};

#[cfg(test)]
mod tests;
