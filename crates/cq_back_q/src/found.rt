// What the opening of a queue finds, and that of a folder.
use cq_bytes::Body;
use cq_entry::Entry;
use cq_index::Segment;
use cq_small::SmallStore;

/// A present entry, and where it stands.
#[derive(Clone, Copy, Debug, PartialEq, Eq)]
pub struct HeldEntry {
    /// The queue, below 256.
    pub queue: u32,
    /// The number of the segment.
    pub segment: u64,
    /// Its place in the segment, below 4096.
    pub at: u32,
    pub entry: Entry,
}

/// What the opening of a queue finds.
#[derive(Drop)]
pub struct FoundQueue {
    /// The open indexes, by rising number.
    pub segments: Vec<Segment>,
    /// The open small stores of these segments, by rising number. A segment may have none.
    pub stores: Vec<SmallStore>,
    /// The present entries, by rising segment and place.
    pub held: Vec<HeldEntry>,
    /// Their bodies, in the same order. That of a shared message stands in a shared file, which isn't read.
    pub bodies: Vec<Option<Body>>,
}

/// A queue of a folder that has an index or a small store, and what its opening finds.
#[derive(Drop)]
pub struct ListedQueue {
    /// The queue, below 256.
    pub queue: u32,
    pub found: FoundQueue,
}

/// What the opening of a folder finds.
#[derive(Drop)]
pub struct FoundFolder {
    /// The queues that have files, by rising number. One that had only small stores without an index has none any more.
    pub queues: Vec<ListedQueue>,
}
