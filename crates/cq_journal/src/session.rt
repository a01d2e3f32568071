// A session, as it is handed back.
use crate::Journal;

/// A moment after a word of the schedule: how many entries the journal had, and the disk's moment.
#[derive(Clone, Copy, Debug, PartialEq, Eq)]
pub struct After {
    pub entries: u64,
    pub moment: u64,
}

/// What was served from one opening of the folder to the next.
#[derive(Debug, Drop)]
pub struct Session {
    pub journal: Journal,
    /// The clients, rising, whose last delivery was not read when the session ended.
    pub cut: Vec<u32>,
    /// The state after each word of the schedule that was done, in order.
    pub after: Vec<After>,
}
