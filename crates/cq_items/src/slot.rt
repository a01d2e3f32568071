// A place of a queue, and the message there.
ghost use Rattle.cq_items.specs.Items.{decide, found_item, new_item};
ghost use Rattle.cq_items.specs.Slots.{handed_to, held_by};
ghost use Rattle.std.specs.Option.{option_copied};
ghost use Rattle.std.specs.Prelude.{◌≡◌, None, Some, is_some, not, option_map};

use crate::{Holder, Stand};
use cq_bytes::Body;
use cq_entry::EntryKind;
use std::marker::Model;
use std::mem::size_of;

/// What a place has of its message beside the plain fields.
#[derive(Debug, Drop)]
pub(crate) enum Content {
    /// There is no message.
    Empty,
    /// The body isn't in memory, and the entry isn't committed.
    Absent,
    /// The body of a small message that isn't committed.
    InMemory(Body),
    /// Where the entry and the record of a committed message stand.
    Committed(Stand),
}

/// Who has a message, but for the numbers of a delivery.
#[derive(Clone, Copy, Debug)]
pub(crate) enum State {
    Free,
    Taken,
    Settled,
}

/// A place of a queue, in 64 bytes. A contract sees its message; an empty place has none.
#[derive(Debug, Drop)]
pub(crate) struct Slot {
    id: u128,
    content: Content,
    len: u32,
    /// The client and the number of the delivery, while the message is out.
    client: u32,
    delivery: u32,
    state: State,
    kind: EntryKind,
    fresh: bool,
}

impl Model for Slot {
    ghost use Rattle.std.specs.Prelude.{Option};
    ghost use Rattle.cq_items.specs.Item.{Item};

    ghost Value = { Option Item };

    ghost use Rattle.cq_items.specs.Slot.{slot_in};

    ghost view = { slot_in };
}

// A queue of a million messages takes memory by this size.
const _: () = prove!(size_of::<Slot>() == 64);

/// A message of a queue, as it stands there.
#[derive(Debug, Drop)]
pub struct Message<'a> {
    slot: &'a Slot,
}

impl<'a> Model for Message<'a> {
    ghost use Rattle.std.specs.Prelude.{◌≡◌, true, is_some};
    ghost use Rattle.cq_items.specs.Item.{Item};
    ghost use Rattle.cq_items.specs.Message.{message_in};

    ghost Value = { Item };

    ghost view = { λ m. message_in m.slot.now };

    ghost invariant = { λ m. is_some m.slot.now ≡ true };
}

impl Slot {
    /// A place with a message whose entry is undecided; a small one has its body.
    pub(crate) fn published(id: u128, body: Option<Body>, len: u32) -> Slot
        ensures { result ≡ Some (new_item id body len) }
    {
        match body {
            Some(body) => Slot {
                id,
                content: Content::InMemory(body),
                len,
                client: 0,
                delivery: 0,
                state: State::Free,
                kind: EntryKind::Small,
                fresh: true,
            },
            None => Slot {
                id,
                content: Content::Absent,
                len,
                client: 0,
                delivery: 0,
                state: State::Free,
                kind: EntryKind::Shared,
                fresh: true,
            },
        }
    }

    /// A place with a message that stands in the files.
    pub(crate) fn found(id: u128, kind: EntryKind, len: u32, stand: Stand) -> Slot
        ensures { result ≡ Some (found_item id kind len stand) }
    {
        Slot {
            id,
            content: Content::Committed(stand),
            len,
            client: 0,
            delivery: 0,
            state: State::Free,
            kind,
            fresh: true,
        }
    }

    /// Whether there is no message.
    pub(crate) fn is_empty(&self) -> bool
        ensures { result ≡ not (is_some self.now) }
    {
        matches!(self.content, Content::Empty)
    }

    /// The message there. `None` exactly where the place is empty.
    pub(crate) fn message(&self) -> Option<Message<'_>>
        ensures { result ≡ self.now }
    {
        if self.is_empty() {
            None
        } else {
            Some(Message { slot: self })
        }
    }

    /// Gives the message there to another holder.
    pub(crate) fn set_holder(&mut self, holder: Holder)
        ensures { self.new ≡ held_by holder self.old }
    {
        match holder {
            Holder::Waiting => self.state = State::Free,
            Holder::Out { client, delivery } => {
                self.state = State::Taken;
                self.client = client;
                self.delivery = delivery;
            }
            Holder::Gone => self.state = State::Settled,
        }
    }

    /// Hands the message there to this holder.
    pub(crate) fn hand_to(&mut self, holder: Holder)
        ensures { self.new ≡ handed_to holder self.old }
    {
        self.set_holder(holder);
        self.fresh = false;
    }

    /// Commits the message there, whose entry and record stand here; its body leaves memory.
    pub(crate) fn commit(&mut self, stand: Stand)
        ensures { self.new ≡ option_map (decide stand) self.old }
    {
        if !self.is_empty() {
            self.content = Content::Committed(stand);
        }
    }

    /// Drops the message there.
    pub(crate) fn clear(&mut self)
        ensures { self.new ≡ None }
    {
        self.content = Content::Empty;
    }
}

impl<'a> Message<'a> {
    /// The id.
    pub fn id(&self) -> u128
        ensures { result ≡ self.now.id }
    {
        let slot = self.slot;
        slot.id
    }

    /// How the message is stored.
    pub fn kind(&self) -> EntryKind
        ensures { result ≡ self.now.kind }
    {
        let slot = self.slot;
        slot.kind
    }

    /// How many bytes the body has.
    pub fn len(&self) -> u32
        ensures { result ≡ self.now.len }
    {
        let slot = self.slot;
        slot.len
    }

    /// The body of a small message that isn't committed.
    pub fn body(&self) -> Option<&'a Body>
        ensures { option_copied result ≡ self.now.body }
    {
        let slot = self.slot;
        match &slot.content {
            Content::InMemory(body) => Some(body),
            _ => None,
        }
    }

    /// Where the entry and the record stand, once the message is committed.
    pub fn stand(&self) -> Option<Stand>
        ensures { result ≡ self.now.stand }
    {
        let slot = self.slot;
        match &slot.content {
            Content::Committed(stand) => Some(*stand),
            _ => None,
        }
    }

    /// Who has the message.
    pub fn holder(&self) -> Holder
        ensures { result ≡ self.now.holder }
    {
        let slot = self.slot;
        match slot.state {
            State::Free => Holder::Waiting,
            State::Taken => Holder::Out {
                client: slot.client,
                delivery: slot.delivery,
            },
            State::Settled => Holder::Gone,
        }
    }
}
