//! The messages for the shared store that are not yet written, in order of publishing.
#![tactic(auto)]

ghost use Rattle.std.specs.Prelude.{◌≡◌, ◌≤◌, ◌<◌, ◌++◌, [], ◌∷◌, None, OnOk, OnErr, length, drop, slice_get, option_copied, option_map};
ghost use Rattle.cq_pending.specs.Messages.{body_of, ids_of, AreDifferent};

use cq_bytes::Body;
use cq_map::NumberMap;
use std::alloc::{AllocError, Global};
use std::collections::VecDeque;
use std::marker::Model;

/// Messages in order of publishing, each with its id and its body, and no id twice. A contract sees the list of these
/// pairs.
#[derive(Drop)]
pub struct Pending {
    ids: VecDeque<u128>,
    bodies: NumberMap<Body>,
}

impl Model for Pending {
    ghost use Rattle.std.specs.Prelude.{ℕ, List};
    ghost use Rattle.cq_pending.specs.Messages.{messages, IsHeld};

    ghost Value = { List (ℕ × List ℕ) };

    ghost view = { λ p. messages p.ids.items p.bodies };

    ghost invariant = { λ p. IsHeld p.ids.items p.bodies };
}

impl Pending {
    /// No message. It takes no memory.
    pub fn new(alloc: Global) -> Pending
        ensures { result ≡ [] }
    {
        Pending {
            ids: VecDeque::new(alloc),
            bodies: NumberMap::new(alloc),
        }
    }

    /// Adds a message at the end. The messages are unchanged where memory runs out.
    pub fn add(&mut self, id: u128, body: Body) -> Result<(), AllocError>
        requires { body_of self.old id ≡ None }
        ensures ok { OnOk result (self.new ≡ self.old ++ (id, body) ∷ []) }
        ensures err { OnErr result (self.new ≡ self.old) }
    {
        self.ids.push_back(id)?;
        match self.bodies.insert(id, body) {
            Ok(()) => Ok(()),
            Err(error) => {
                self.ids.pop_back();
                Err(error)
            }
        }
    }

    /// The body of a message. `None` exactly where the id isn't there.
    pub fn body(&self, id: u128) -> Option<&Body>
        ensures body { option_copied result ≡ body_of self.now id }
        ensures once { AreDifferent (ids_of self.now) }
    {
        self.bodies.get(id)
    }

    /// The id of the message at an index from the front. `None` exactly where there is none.
    pub fn at(&self, index: usize) -> Option<u128>
        ensures id { result ≡ slice_get (ids_of self.now) index }
        ensures once { AreDifferent (ids_of self.now) }
    {
        self.ids.get(index).copied()
    }

    /// Takes so many messages from the front.
    pub fn take_front(&mut self, count: usize)
        requires { count ≤ length self.old }
        ensures { self.new ≡ drop count self.old }
    {
        for _ in 0..count {
            self.take_first();
        }
    }

    /// Takes the first message.
    fn take_first(&mut self)
        ensures { self.new ≡ drop 1 self.old }
    {
        if let Some(id) = self.ids.pop_front() {
            self.bodies.remove(id);
        }
    }
}

#[cfg(test)]
mod tests;
