//! What a node keeps of one client: its open deliveries, how many publishes and deliveries it had, and its replies.
#![tactic(auto)]

mod client;
mod open;

pub use client::Client;
pub use open::OpenDelivery;

#[cfg(test)]
mod tests;
