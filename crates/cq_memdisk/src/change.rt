// What the record of a disk keeps of each change to a file.
use cq_disk::Name;

/// What happened to one file.
#[derive(Drop)]
pub enum Change {
    /// These bytes were written at this place.
    Write(u64, Vec<u8>),
    /// It was cut to this length.
    Cut(u64),
    /// It was synced.
    Sync,
    /// It was made, with no bytes.
    Create,
    /// It was removed.
    Remove,
    /// It was put there with these bytes, as if synced; no call of the device.
    Load(Vec<u8>),
}

/// A change to a file, and the first moment that has it.
#[derive(Drop)]
pub struct Note {
    /// The first moment that has the change.
    pub from: u64,
    /// The file.
    pub name: Name,
    /// What happened to it.
    pub change: Change,
}
