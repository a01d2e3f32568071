//! The clients and queues of a node in memory: what its clients ask is answered, and what happens is journaled.
#![tactic(auto)]

mod broker;
mod next;

pub use broker::Broker;
pub use next::Next;

#[cfg(test)]
mod tests;
