// What is committed and acknowledged leaves the queue, segment by segment.
ghost use Rattle.cq_items.specs.Items.{lowest_segment, others_items, settled_items};
ghost use Rattle.cq_items.specs.Queue.{AreSettling, IsSettling, SettledOne, left_in};
ghost use Rattle.std.specs.Prelude.{length, ◌≡◌, Some, IfOk, OnOk, OnErr};

use crate::slot::Slot;
use crate::slots::{empty, stand_of};
use crate::{Items, Settling};
use std::alloc::AllocError;

/// A message that left: the place of its entry in its segment, and its id.
#[derive(Clone, Copy)]
struct Left {
    at: u32,
    id: u128,
}

/// What is told of the message at a place, where its entry stands in this segment.
fn left_in(slot: &Slot, segment: u64) -> Option<Left>
    ensures { result ≡ left_in segment slot.now }
{
    if let Some(item) = slot.message() {
        if let Some(stand) = item.stand() {
            if stand.segment == segment {
                return Some(Left {
                    at: stand.at,
                    id: item.id(),
                });
            }
        }
    }
    None
}

impl Items {
    /// How many messages are committed and acknowledged.
    pub fn settling(&self) -> usize
        ensures { result ≡ length (settled_items self.now.items) }
    {
        self.gone.len()
    }

    /// The committed and acknowledged messages of the lowest segment that has any leave the queue; they are told. `None`
    /// exactly where nothing is committed and acknowledged. Where memory runs out nothing has changed.
    ///
    /// The entries of a queue stand in line order, by segment and by place in it. So the lowest segment is that of the first
    /// message that is committed and acknowledged, its other ones come next among these, and the places of their entries rise.
    pub fn settle(&mut self) -> Result<Option<Settling>, AllocError>
        ensures told { IfOk result (λ settling. IsSettling settling self.old.items) }
        ensures ok { OnOk result (self.new ≡ record self.old { items = others_items self.old.items }) }
        ensures err { OnErr result (self.new ≡ self.old) }
    {
        match self.lowest_segment() {
            Some(segment) => match self.settle_in(segment) {
                Ok(settling) => Ok(Some(settling)),
                Err(error) => Err(error),
            },
            None => Ok(None),
        }
    }

    /// The committed and acknowledged messages of this segment, the lowest that has any, leave the queue.
    fn settle_in(&mut self, segment: u64) -> Result<Settling, AllocError>
        requires { lowest_segment self.old.items ≡ Some segment }
        ensures told { IfOk result (λ settling. AreSettling settling self.old.items) }
        ensures ok { OnOk result (self.new ≡ record self.old { items = others_items self.old.items }) }
        ensures err { OnErr result (self.new ≡ self.old) }
    {
        let alloc = *self.slots.allocator();
        let mut at = Vec::with_capacity(alloc, self.settling())?;
        let mut ids = Vec::with_capacity(alloc, self.settling())?;
        loop {
            match self.settle_one(segment) {
                Some(left) => {
                    at.push_reserved(left.at);
                    ids.push_reserved(left.id);
                }
                None => {
                    self.tidy();
                    return Ok(Settling { segment, at, ids });
                }
            }
        }
    }

    /// The segment of the first message that is committed and acknowledged. `None` exactly where there is none.
    fn lowest_segment(&self) -> Option<u64>
        ensures { result ≡ lowest_segment self.now.items }
    {
        match self.gone.first() {
            Some(at) => match stand_of(&self.slots[at as usize]) {
                Some(stand) => Some(stand.segment),
                None => None,
            },
            None => None,
        }
    }

    /// The first message that is committed and acknowledged leaves the queue, where it stands in this segment.
    fn settle_one(&mut self, segment: u64) -> Option<Left>
        ensures { SettledOne segment result self.old self.new }
    {
        match self.gone.first() {
            Some(at) => match left_in(&self.slots[at as usize], segment) {
                Some(left) => {
                    self.gone.drop_first();
                    empty(&mut self.slots, at as usize);
                    self.empty = self.empty.saturating_add(1);
                    Some(left)
                }
                None => None,
            },
            None => None,
        }
    }
}
