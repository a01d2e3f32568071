//! Where the records of the shared store stand, and what its files hold.
#![tactic(auto)]

mod files;
mod located;

pub use located::Table;

/// Where a record stands.
#[derive(Clone, Copy, Debug, PartialEq, Eq)]
pub struct Place {
    /// The number of its shared file.
    pub file: u64,
    /// The place of its first byte in the file.
    pub at: u64,
    /// The length of its body in bytes; the record has 25 bytes more.
    pub len: u32,
}

#[cfg(test)]
mod tests;
