//! What a node keeps of its clients' requests: the one that was taken and not answered, and the words of what is open.
#![tactic(auto)]

mod closing;
mod fetching;
mod kept;

pub use closing::{close_all, close_open};
pub use fetching::fetch;
pub use kept::{Kept, Kind};

#[cfg(test)]
mod tests;
