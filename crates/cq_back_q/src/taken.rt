// What was read of a queue so far.
use crate::found::HeldEntry;
use cq_bulk::Bodies;
use cq_bytes::Body;
use std::collections::BTreeSet;

/// The present entries that were read so far, in order, with their bodies.
#[derive(Drop)]
pub(crate) struct Taken {
    pub(crate) held: Vec<HeldEntry>,
    /// The bodies of these entries, in the same order.
    pub(crate) bodies: Vec<Option<Body>>,
    /// The ids of these entries, so that one that stands twice is found without a look at them all.
    pub(crate) ids: BTreeSet<u128>,
}

/// What was read so far, and the window by which the bodies of one small store are read.
#[derive(Drop)]
pub(crate) struct Reader {
    pub(crate) taken: Taken,
    pub(crate) window: Bodies,
}
