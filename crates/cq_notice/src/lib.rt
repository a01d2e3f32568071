//! Who is told of confirms: for each client one box that a caller made, or none.
#![tactic(auto)]

mod notice;
mod notices;
#[cfg(test)]
mod tests;

pub use notice::{Notice, NoticeFault};
pub use notices::{Boxes, Notices};
