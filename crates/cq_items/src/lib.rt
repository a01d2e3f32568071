//! A queue in memory: its messages in order, and who has each.
#![tactic(auto)]

mod heap;
mod item;
mod items;
mod line;
mod outs;
mod slot;
mod slots;
mod tree;

pub use item::{First, Holder, Passed, Settling, Stand};
pub use items::Items;
pub use slot::Message;
