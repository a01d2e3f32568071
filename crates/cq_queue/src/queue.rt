// A queue: its messages in memory, and its segments on a disk.
ghost use Rattle.std.specs.Prelude.{◌≡◌, ◌<◌, ◌≤◌, ◌++◌, ◌∷◌, [], false, length, map, slice_get, OnOk, OnErr, IsSome, Some};
ghost use Rattle.cq_items.specs.Items.{ack, first_of, give_back, hand_out, holder_of, is_out_to, new_item, undecided_items, waiting_items};
ghost use Rattle.cq_queue.specs.Tied.{IsTied, TiedWhere-prop};

mod committing;
mod opening;
mod planning;
mod reading;
mod settling;

use crate::Segments;
use cq_bytes::Body;
use cq_items::{First, Holder, Items};
use std::alloc::{AllocError, Global};

/// A queue: its messages in line order, and its segments on a disk.
///
/// After a fault the value is given up, and the files are opened again.
#[derive(Drop)]
pub struct QueueCore {
    items: Items,
    segments: Segments,
    /// Whether a call on the files failed.
    halted: bool,

    ghost few: { segments.most ≤ 4096 },
    ghost tied: { halted ≡ false → IsTied items.items segments.list.items } by { TiedWhere-prop (halted ≡ false) items.items segments.list.items },
}

impl QueueCore {
    ghost use Rattle.cq_queue.specs.Values.{CanPublish, IsMost, StaysOnDisk, empty_queue, value_of};

    /// A queue without messages and files, whose segments get this many entries at most, from 16 to 4096. It takes no
    /// memory, and makes no call of a disk.
    pub fn vacant(alloc: Global, queue: u32, length: u32) -> QueueCore
        requires length { IsMost length }
        ensures { value_of result ≡ empty_queue queue length }
    {
        QueueCore {
            items: Items::new(alloc),
            segments: Segments::new(alloc, queue, length),
            halted: false,
        }
    }

    /// Takes the memory for one more message, whatever happens to it. Where there is none, nothing changes.
    pub fn reserve(&mut self) -> Result<(), AllocError>
        ensures ok { OnOk result (value_of self.new ≡ record (value_of self.old) { reserved = 1 }) }
        ensures err { OnErr result (value_of self.new ≡ value_of self.old) }
    {
        self.items.reserve()
    }

    /// Adds a message at the end of the queue; its entry is undecided. A small one is given its body. It takes no memory.
    ///
    /// Room was reserved since the last publish; the id isn't 0; `len` is at most 1,048,576, the length of a given body.
    pub fn publish(&mut self, id: u128, body: Option<Body>, len: u32)
        requires { CanPublish (value_of self.old) id body len }
        ensures queue { value_of self.new ≡ record (value_of self.old)
            { items = (value_of self.old).items ++ new_item id body len ∷ []; reserved = 0 } }
        ensures files { StaysOnDisk (value_of self.old) (value_of self.new) }
    {
        self.items.publish(id, body, len);
    }

    /// What is handed out next. `None` exactly where nothing waits.
    pub fn first_waiting(&self) -> Option<First>
        ensures { result ≡ slice_get (map first_of (waiting_items (value_of self.now).items)) 0 }
    {
        self.items.first_waiting()
    }

    /// How many messages wait.
    pub fn waiting(&self) -> u64
        ensures { result ≡ length (waiting_items (value_of self.now).items) }
    {
        self.items.waiting()
    }

    /// Whether a message of this queue is out to this client, under this number among its deliveries.
    pub fn is_out(&self, client: u32, delivery: u32) -> bool
        ensures { result ≡ is_out_to client delivery (value_of self.now).items }
    {
        self.items.is_out(client, delivery)
    }

    /// The first message that waits is out to this client, under this number among its deliveries. It takes no memory.
    pub fn deliver(&mut self, client: u32, delivery: u32)
        requires some { 0 < length (waiting_items (value_of self.old).items) }
        requires fresh { is_out_to client delivery (value_of self.old).items ≡ false }
        ensures queue { value_of self.new ≡ record (value_of self.old)
            { items = hand_out client delivery (value_of self.old).items } }
        ensures files { StaysOnDisk (value_of self.old) (value_of self.new) }
    {
        self.items.deliver(client, delivery);
    }

    /// The message of this delivery is acknowledged. Nothing happens where the delivery isn't out. It takes no memory.
    pub fn acked(&mut self, client: u32, delivery: u32)
        ensures queue { value_of self.new ≡ record (value_of self.old)
            { items = ack client delivery (value_of self.old).items } }
        ensures files { StaysOnDisk (value_of self.old) (value_of self.new) }
    {
        self.items.acked(client, delivery);
    }

    /// Every delivery that is out to the client goes back to its old place. It takes no memory.
    pub fn give_back(&mut self, client: u32)
        ensures queue { value_of self.new ≡ record (value_of self.old)
            { items = give_back client (value_of self.old).items } }
        ensures files { StaysOnDisk (value_of self.old) (value_of self.new) }
    {
        self.items.give_back(client);
    }

    /// How many entries are undecided.
    pub fn undecided_count(&self) -> usize
        ensures { result ≡ length (undecided_items (value_of self.now).items) }
    {
        self.items.undecided_count()
    }

    /// The id of the undecided entry at this place from the front. `None` exactly past the last.
    pub fn undecided(&self, at: usize) -> Option<u128>
        ensures { result ≡ slice_get (map (λ i. i.id) (undecided_items (value_of self.now).items)) at }
    {
        self.items.undecided(at)
    }

    /// Who has the undecided message with this id.
    pub fn holder(&self, id: u128) -> Holder
        requires { IsSome (holder_of id (undecided_items (value_of self.now).items)) }
        ensures { Some result ≡ holder_of id (undecided_items (value_of self.now).items) }
    {
        self.items.holder(id)
    }
}
