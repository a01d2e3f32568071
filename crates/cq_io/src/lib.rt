//! Where bytes come from and go to, folders that are opened as disks, each with a count of its faults, and how a top call
//! ended.
#![tactic(auto)]

mod folders;
mod memory;
mod memory_folders;
mod sink;
mod source;
mod standard;
mod status;

pub use folders::Folders;
pub use memory::{MemSink, MemSource};
pub use memory_folders::MemFolders;
pub use sink::{OutputFault, Sink};
pub use source::{InputFault, Source};
pub use standard::{StdSink, StdSource};
pub use status::Status;

#[cfg(test)]
mod tests;
