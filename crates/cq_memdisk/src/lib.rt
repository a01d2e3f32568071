//! A disk in memory that keeps a record of its calls, and can be made to fail and to crash.
#![tactic(auto)]

mod altered;
mod change;
mod crashable;
mod disk;
mod folder;
mod perform;
mod replay;
mod stored;

pub use altered::Altered;
pub use change::{Change, Note};
pub use crashable::Crashable;
pub use disk::MemDisk;
