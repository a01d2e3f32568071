// Which deliveries are out, and the places of their messages.
ghost use Rattle.cq_items.specs.Outs.{find, Puts, Took, TookOne};
ghost use Rattle.std.specs.Prelude.{length, ◌≡◌, ◌<◌, ◌≤◌, ◌+◌, [], OnOk, None, Some, IsSome, min, is_some};

use crate::tree::{Node, index_of, put, remove};
use std::alloc::{AllocError, Global};
use std::marker::Model;

/// How many deliveries can be out: the number of an index of 32 bits.
const MOST: usize = 0x1_0000_0000;

/// A delivery, and the place of its message.
#[derive(Clone, Copy, Debug)]
pub struct Held {
    pub client: u32,
    pub delivery: u32,
    pub at: u32,
}

/// The deliveries that are out.
#[derive(Debug, Drop)]
pub struct Outs {
    nodes: Vec<Node>,
}

impl Model for Outs {
    ghost use Rattle.cq_items.specs.OutsValue.{OutsValue, AreOnce};
    ghost use Rattle.cq_items.specs.Tree.{IsTree, helds};
    ghost use Rattle.std.specs.Prelude.{length, vec_capacity, min, ◌^◌, ◌≤◌};

    ghost Value = { OutsValue };

    ghost view = { λ o. record { held = helds o.nodes.items; room = min (vec_capacity o.nodes) (2 ^ 32) } };

    ghost invariant = { λ o. IsTree o.nodes.items × AreOnce (helds o.nodes.items) × length o.nodes.items ≤ 2 ^ 32 };
}

impl Outs {
    /// Nothing is out.
    pub fn new(alloc: Global) -> Outs
        ensures { result.held ≡ [] }
    {
        Outs {
            nodes: Vec::new(alloc),
        }
    }

    /// How many messages are out.
    pub fn len(&self) -> usize
        ensures { result ≡ length self.now.held }
    {
        self.nodes.len()
    }

    /// Whether this delivery is out.
    pub fn has(&self, client: u32, delivery: u32) -> bool
        ensures { result ≡ is_some (find client delivery self.now.held) }
    {
        index_of(&self.nodes, client, delivery, false).is_some()
    }

    /// Takes the memory for so many more. More than 2 ^ 32 in all are refused as if memory ran out.
    pub fn reserve(&mut self, count: usize) -> Result<(), AllocError>
        ensures held { self.new.held ≡ self.old.held }
        ensures grows { self.old.room ≤ self.new.room }
        ensures ok { OnOk result (length self.new.held + count ≤ self.new.room) }
    {
        if count > MOST - self.nodes.len() {
            return Err(AllocError);
        }
        self.nodes.reserve(count)
    }

    /// Gives memory back, but for so many deliveries in all.
    pub fn shrink_to(&mut self, count: usize)
        ensures held { self.new.held ≡ self.old.held }
        ensures room { min count self.old.room ≤ self.new.room }
    {
        self.nodes.shrink_to(count);
    }

    /// One more delivery is out.
    pub fn put(&mut self, client: u32, delivery: u32, at: u32)
        requires room { length self.old.held < self.old.room }
        requires fresh { find client delivery self.old.held ≡ None }
        ensures puts { Puts client delivery (Some at) self.old.held self.new.held }
        ensures len { length self.new.held ≡ length self.old.held + 1 }
        ensures room { self.new.room ≡ self.old.room }
    {
        put(&mut self.nodes, client, delivery, at);
    }

    /// Where the message of this delivery is; it is no longer out. `None` exactly where it isn't out.
    pub fn take(&mut self, client: u32, delivery: u32) -> Option<u32>
        ensures took { Took client delivery result self.old.held self.new.held }
        ensures room { self.new.room ≡ self.old.room }
    {
        match index_of(&self.nodes, client, delivery, false) {
            Some(index) => {
                let held = remove(&mut self.nodes, index);
                Some(held.at)
            }
            None => None,
        }
    }

    /// One delivery of this client, which is no longer out. `None` exactly where the client has none.
    pub fn take_of(&mut self, client: u32) -> Option<Held>
        ensures took { TookOne client result self.old.held self.new.held }
        ensures room { self.new.room ≡ self.old.room }
    {
        match index_of(&self.nodes, client, 0, true) {
            Some(index) => Some(remove(&mut self.nodes, index)),
            None => None,
        }
    }

    /// The message of a delivery that is out stands at another place.
    pub fn move_to(&mut self, client: u32, delivery: u32, at: u32)
        requires { IsSome (find client delivery self.old.held) }
        ensures puts { Puts client delivery (Some at) self.old.held self.new.held }
        ensures len { length self.new.held ≡ length self.old.held }
        ensures room { self.new.room ≡ self.old.room }
    {
        match index_of(&self.nodes, client, delivery, false) {
            Some(index) => self.nodes[index].held.at = at,
            None => {}
        }
    }
}
