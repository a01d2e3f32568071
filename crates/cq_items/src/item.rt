// What is said of a queue's messages.
use cq_entry::EntryKind;

/// Who has a message.
#[derive(Clone, Copy, Debug, PartialEq, Eq)]
pub enum Holder {
    /// Nobody: it waits to be handed out.
    Waiting,
    /// A client, under this number among its deliveries.
    Out { client: u32, delivery: u32 },
    /// Nobody any more: it was acknowledged.
    Gone,
}

/// Where a committed entry and its record stand.
#[derive(Clone, Copy, Debug, PartialEq, Eq)]
pub struct Stand {
    /// The number of the segment.
    pub segment: u64,
    /// The entry's place in the segment.
    pub at: u32,
    /// The record's place in the segment's small store; 0 for a shared message.
    pub place: u64,
}

/// What a queue hands out next.
#[derive(Clone, Copy, Debug, PartialEq, Eq)]
pub struct First {
    pub id: u128,
    pub kind: EntryKind,
    /// How many bytes the body has.
    pub len: u32,
}

/// What a settling took out of a queue: committed and acknowledged messages of one segment, in line order.
#[derive(Debug, Drop)]
pub struct Settling {
    /// The number of the segment.
    pub segment: u64,
    /// The places of their entries in the segment.
    pub at: Vec<u32>,
    /// Their ids, in the same order.
    pub ids: Vec<u128>,
}

/// A message whose entry was passed: it is committed where it was kept, and else has left the queue.
#[derive(Clone, Copy, Debug, PartialEq, Eq)]
pub struct Passed {
    pub id: u128,
    pub kept: bool,
}
