//! The journal of a session: what happened in a node, in the order in which it happened.
#![tactic(auto)]

mod event;
mod journal;
mod lines;
mod reply;
mod session;

pub use event::{Entry, Event, Message};
pub use journal::Journal;
pub use lines::{Line, Lines};
pub use reply::Reply;
pub use session::{After, Session};

#[cfg(test)]
mod tests;
