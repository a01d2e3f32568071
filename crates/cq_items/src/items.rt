// A queue in memory.
ghost use Rattle.cq_items.specs.Items.{ack, committed, first_of, found_item, fresh_items, give_back, hand_out, is_out_to, new_item, undecided_items, waiting_items};
ghost use Rattle.cq_items.specs.Line.{put_in};
ghost use Rattle.cq_items.specs.Slots.{passes};
ghost use Rattle.cq_items.specs.Queue.{GaveOne};
ghost use Rattle.std.specs.Prelude.{length, map, slice_get, ◌≡◌, ◌<◌, ◌≤◌, ◌+◌, ◌++◌, ◌∷◌, [], false, if◌then◌else◌, OnOk, OnErr};

mod deciding;
mod packing;
mod settling;

use crate::heap::Heap;
use crate::line::Line;
use crate::outs::Outs;
use crate::slot::Slot;
use crate::slots::{hand_to, set_holder};
use crate::{First, Holder, Message, Stand};
use cq_bytes::Body;
use cq_entry::EntryKind;
use std::alloc::{AllocError, Global};
use std::collections::VecDeque;
use std::marker::Model;

/// How many places there may be, so that each has a number of 32 bits.
const MOST_PLACES: usize = 4_294_967_295;

/// A queue in memory. A contract sees its messages in line order, and for how many more there is room.
#[derive(Debug, Drop)]
pub struct Items {
    /// A place for each message, in line order. Places of messages that have left are empty.
    slots: VecDeque<Slot>,
    /// The places of what waits, rising.
    waiting: Line,
    outs: Outs,
    /// The places of what is committed and acknowledged.
    gone: Heap,
    /// The place from which on nothing is decided.
    first: usize,
    /// The place from which on nothing was ever handed out.
    unseen: usize,
    /// How many places were emptied since they were closed up last; it only tells when to do so again.
    empty: usize,
    reserved: usize,
}

impl Model for Items {
    ghost use Rattle.std.specs.Prelude.{length};
    ghost use Rattle.std.specs.VecDeque.{deque_capacity};
    ghost use Rattle.cq_items.specs.Slots.{alive};
    ghost use Rattle.cq_items.specs.Queue.{Queue, IsIndexed, IsUnseen, HasRoom};

    ghost Value = { Queue };

    ghost view = { λ q. record { items = alive q.slots.items; reserved = q.reserved } };

    ghost invariant = { λ q. IsIndexed q.slots.items q.waiting.items q.outs.held q.gone.items q.first
        × HasRoom (length q.slots.items) (length q.waiting.items) (length q.outs.held) (length q.gone.items) q.reserved (deque_capacity q.slots) q.waiting.room q.outs.room q.gone.room
        × IsUnseen q.slots.items q.unseen };
}

/// Notes the place of a message that is acknowledged, where its entry is committed.
fn note_gone(gone: &mut Heap, slot: &Slot, at: u32)
    requires { length gone.old.items < gone.old.room }
    ensures items { gone.new.items ≡ (if passes committed slot.now then put_in at gone.old.items else gone.old.items) }
    ensures room { gone.old.room ≤ gone.new.room }
{
    if let Some(item) = slot.message() {
        if item.stand().is_some() {
            gone.put(at);
        }
    }
}

impl Items {
    /// A queue without messages. It takes no memory.
    pub fn new(alloc: Global) -> Items
        ensures { result ≡ record { items = []; reserved = 0 } }
    {
        Items {
            slots: VecDeque::new(alloc),
            waiting: Line::new(alloc),
            outs: Outs::new(alloc),
            gone: Heap::new(alloc),
            first: 0,
            unseen: 0,
            empty: 0,
            reserved: 0,
        }
    }

    /// Takes the memory for one more message, whatever happens to it. Where memory runs out, or there are 4,294,967,295
    /// places, nothing has changed.
    pub fn reserve(&mut self) -> Result<(), AllocError>
        ensures ok { OnOk result (self.new ≡ record self.old { reserved = 1 }) }
        ensures err { OnErr result (self.new ≡ self.old) }
    {
        if self.slots.len() >= MOST_PLACES {
            return Err(AllocError);
        }
        let open = self.outs.len();
        let waiting = self.waiting.len();
        self.slots.reserve(1)?;
        self.waiting.reserve(open.saturating_add(1))?;
        self.outs.reserve(waiting.saturating_add(1))?;
        self.gone
            .reserve(waiting.saturating_add(open).saturating_add(1))?;
        self.reserved = 1;
        Ok(())
    }

    /// Adds a message at the end of the queue; its entry is undecided. A small one is given its body. It takes no memory.
    pub fn publish(&mut self, id: u128, body: Option<Body>, len: u32)
        requires { 0 < self.old.reserved }
        ensures { self.new ≡ record { items = self.old.items ++ new_item id body len ∷ []; reserved = 0 } }
    {
        let at = self.slots.len() as u32;
        self.slots
            .push_back_reserved(Slot::published(id, body, len));
        self.waiting.push(at);
        self.reserved = 0;
    }

    /// Adds a message that stands in the files at the end of the queue, where nothing is undecided. It takes no memory.
    pub fn restore(&mut self, id: u128, kind: EntryKind, len: u32, stand: Stand)
        requires reserved { 0 < self.old.reserved }
        requires decided { undecided_items self.old.items ≡ [] }
        ensures { self.new ≡ record { items = self.old.items ++ found_item id kind len stand ∷ []; reserved = 0 } }
    {
        let at = self.slots.len() as u32;
        self.slots
            .push_back_reserved(Slot::found(id, kind, len, stand));
        self.waiting.push(at);
        self.first = self.slots.len();
        self.reserved = 0;
    }

    /// The message that is handed out next. `None` exactly where nothing waits.
    pub fn first_item(&self) -> Option<Message<'_>>
        ensures { result ≡ slice_get (waiting_items self.now.items) 0 }
    {
        match self.waiting.first() {
            Some(at) => self.slots[at as usize].message(),
            None => None,
        }
    }

    /// The committed message at this place among those that were never handed out, in line order. `None` exactly past the last.
    pub fn fresh_item(&self, at: usize) -> Option<Message<'_>>
        ensures { result ≡ slice_get (fresh_items self.now.items) at }
    {
        if at >= self.first.saturating_sub(self.unseen) {
            return None;
        }
        self.slots[self.unseen + at].message()
    }

    /// What is told of the message that is handed out next. `None` exactly where nothing waits.
    pub fn first_waiting(&self) -> Option<First>
        ensures { result ≡ slice_get (map first_of (waiting_items self.now.items)) 0 }
    {
        match self.first_item() {
            Some(item) => Some(First {
                id: item.id(),
                kind: item.kind(),
                len: item.len(),
            }),
            None => None,
        }
    }

    /// How many messages wait.
    pub fn waiting(&self) -> u64
        ensures { result ≡ length (waiting_items self.now.items) }
    {
        self.waiting.len() as u64
    }

    /// Whether a message of this queue is out to this client, under this number among its deliveries.
    pub fn is_out(&self, client: u32, delivery: u32) -> bool
        ensures { result ≡ is_out_to client delivery self.now.items }
    {
        self.outs.has(client, delivery)
    }

    /// The first message that waits is out to this client, under this number among its deliveries. It takes no memory.
    pub fn deliver(&mut self, client: u32, delivery: u32)
        requires some { 0 < length (waiting_items self.old.items) }
        requires fresh { is_out_to client delivery self.old.items ≡ false }
        ensures { self.new ≡ record self.old { items = hand_out client delivery self.old.items } }
    {
        match self.waiting.pop() {
            Some(at) => {
                hand_to(
                    &mut self.slots,
                    at as usize,
                    Holder::Out { client, delivery },
                );
                self.outs.put(client, delivery, at);
                self.unseen = self.unseen.max(at as usize + 1);
            }
            None => {}
        }
    }

    /// The message of this delivery is acknowledged. Nothing happens where the delivery isn't out. It takes no memory.
    pub fn acked(&mut self, client: u32, delivery: u32)
        ensures { self.new ≡ record self.old { items = ack client delivery self.old.items } }
    {
        match self.outs.take(client, delivery) {
            Some(at) => {
                note_gone(&mut self.gone, &self.slots[at as usize], at);
                set_holder(&mut self.slots, at as usize, Holder::Gone);
            }
            None => {}
        }
    }

    /// Every delivery that is out to the client goes back to its old place. It takes no memory.
    pub fn give_back(&mut self, client: u32)
        ensures { self.new ≡ record self.old { items = give_back client self.old.items } }
    {
        while self.give_one(client) {}
    }

    /// One delivery that is out to the client goes back. False exactly where none is out to it.
    fn give_one(&mut self, client: u32) -> bool
        ensures { GaveOne client result self.old self.new }
    {
        match self.outs.take_of(client) {
            Some(held) => {
                let at = held.at;
                set_holder(&mut self.slots, at as usize, Holder::Waiting);
                self.waiting.put_back(at);
                true
            }
            None => false,
        }
    }
}
