//! How many queues refer to each message of the shared store.
#![tactic(auto)]

ghost use Rattle.std.specs.Prelude.{◌≡◌, ◌<◌, ◌+◌, OnOk, OnErr};
ghost use Rattle.std.specs.FinMap as map;
ghost use Rattle.cq_refs.specs.Counts.{count_of, with_count};

use cq_map::NumberMap;
use std::alloc::{AllocError, Global};
use std::marker::Model;

/// Counts of references by message id. A contract sees a finite map from the ids whose count isn't 0 to their counts.
#[derive(Drop)]
pub struct Refs {
    counts: NumberMap<u32>,
}

impl Model for Refs {
    ghost use Rattle.std.specs.Prelude.{ℕ};
    ghost use Rattle.std.specs.Ordering.{nat_cmp};
    ghost use Rattle.std.specs.FinMap as map;
    ghost use Rattle.std.specs.Coded.{coded_ℕ};

    ghost Value = { map.FinMap nat_cmp ℕ };

    ghost coded = { map.code coded_ℕ coded_ℕ };

    ghost view = { λ refs. refs.counts };
}

impl Refs {
    /// Counts of no message. It takes no memory.
    pub fn new(alloc: Global) -> Refs
        ensures { result ≡ map.empty }
    {
        Refs {
            counts: NumberMap::new(alloc),
        }
    }

    /// Sets the count of an id; the count 0 forgets it. Memory is wanted only where the id has no count yet and is
    /// given one that isn't 0; the counts are unchanged then.
    pub fn set(&mut self, id: u128, count: u32) -> Result<(), AllocError>
        ensures ok { OnOk result (self.new ≡ with_count self.old id count) }
        ensures err { OnErr result (self.new ≡ self.old) }
        ensures absent { OnErr result (count_of self.old id ≡ 0) }
        ensures counted { OnErr result (0 < count) }
    {
        if count == 0 {
            self.counts.remove(id);
            return Ok(());
        }
        self.counts.insert(id, count)
    }

    /// The count of an id, 0 for one that has none.
    pub fn get(&self, id: u128) -> u32
        ensures { result ≡ count_of self.now id }
    {
        self.counts.get(id).copied().unwrap_or(0)
    }

    /// Takes one from the count of an id, and answers what is left.
    pub fn drop_one(&mut self, id: u128) -> u32
        requires { 0 < count_of self.old id }
        ensures left { result + 1 ≡ count_of self.old id }
        ensures dropped { self.new ≡ with_count self.old id result }
    {
        let left = self.get(id) - 1;
        // The id has a count, so this wants no memory.
        let _ = self.set(id, left);
        left
    }
}

#[cfg(test)]
mod tests;
