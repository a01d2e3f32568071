//! The opening of a queue: its indexes and small stores are opened, and their present entries are read with their bodies,
//! in order, or the first byte that doesn't fit is told.
#![tactic(auto)]

mod each;
mod entry;
mod error;
mod files;
mod found;
mod named;
mod numbers;
mod open;
mod own;
mod reading;
mod segment;
mod shelf;
mod strays;
mod sync;
mod taken;

pub use error::BackError;
pub use found::{FoundFolder, FoundQueue, HeldEntry, ListedQueue};
pub use open::open_queue;
