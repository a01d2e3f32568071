//! Reading in large pieces: all present entries of a segment at once, and bodies of a small store by windows of its content.
#![tactic(auto)]

mod bodies;
mod entries;
mod error;
mod read;
mod record;

pub use bodies::Bodies;
pub use entries::present_entries;
pub use error::BodyError;
