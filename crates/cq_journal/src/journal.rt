// The list of what happened.
ghost use Rattle.std.specs.Prelude.{◌≡◌, ◌<◌, ◌≤◌, ◌+◌, ◌∷◌, [], reverse, OnOk, OnErr};

use crate::Entry;
use std::alloc::{AllocError, Global};
use std::marker::Model;

/// What happened in a session. A contract sees the entries with the newest first, and for how many more room is spare.
#[derive(Debug, Drop)]
pub struct Journal {
    items: Vec<Entry>,
}

impl Model for Journal {
    ghost use Rattle.std.specs.Prelude.{◌-◌, reverse, vec_len, vec_capacity};
    ghost use Rattle.cq_journal.specs.Recorded.{Recorded};

    ghost Value = { Recorded };

    ghost view = { λ j. record { entries = reverse j.items.items; room = vec_capacity j.items - vec_len j.items } };
}

impl Journal {
    /// An empty journal.
    pub fn new(alloc: Global) -> Journal
        ensures { result.entries ≡ [] }
    {
        Journal {
            items: Vec::new(alloc),
        }
    }

    /// Makes room for so many more entries. Where that much room is spare it takes no memory; where memory runs out the
    /// journal is as before.
    pub fn reserve(&mut self, count: usize) -> Result<(), AllocError>
        ensures entries { self.new.entries ≡ self.old.entries }
        ensures room { OnOk result (count ≤ self.new.room) }
        ensures kept { self.old.room ≤ self.new.room }
        ensures full { OnErr result (self.old.room < count) }
        ensures err { OnErr result (self.new.room ≡ self.old.room) }
    {
        self.items.reserve(count)
    }

    /// Adds an entry. It takes no memory.
    pub fn push(&mut self, entry: Entry)
        requires { 0 < self.old.room }
        ensures entries { self.new.entries ≡ entry ∷ self.old.entries }
        ensures room { self.old.room ≤ self.new.room + 1 }
    {
        self.items.push_reserved(entry);
    }

    /// The entries, the oldest first.
    pub fn entries(&self) -> &[Entry]
        ensures { reverse result.now ≡ self.now.entries }
    {
        &self.items
    }
}
