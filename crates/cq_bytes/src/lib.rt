//! Big-endian fields of byte slices, and the values that all layers share: message bodies, lists of
//! queues and short texts.
#![tactic(auto)]

mod body;
mod field;
mod queues;
mod text;

pub use body::Body;
pub use field::{put_u32, put_u64, put_u128, take_u16, take_u32, take_u64, take_u128};
pub use queues::{Queues, QueuesError};
pub use text::is_text;

#[cfg(test)]
mod tests;
