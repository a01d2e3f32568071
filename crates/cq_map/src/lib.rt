//! A map from numbers, such as message ids and file numbers, to values. It is a hash map that contracts see as a
//! finite map, whatever the order in which it holds its entries.
#![tactic(auto)]

ghost use Rattle.std.specs.Prelude.{◌≡◌, None, Some, IsSome, IfOk, OnOk, OnErr, IsPermutation, option_copied};
ghost use Rattle.std.specs.Ordering.{nat_cmp};
ghost use Rattle.std.specs.FinMap as map;

use indexmap::IndexMap;
use std::alloc::{AllocError, Global};
use std::marker::Model;

/// A map from numbers of at most 128 bits to values. A contract sees it as a finite map.
#[derive(Drop)]
pub struct NumberMap<V> {
    entries: IndexMap<u128, V>,
}

impl<V> Model for NumberMap<V> {
    ghost use Rattle.std.specs.Ordering.{nat_cmp};
    ghost use Rattle.std.specs.FinMap as map;
    ghost use Rattle.std.specs.Coded.{coded_ℕ};

    ghost Value = { map.FinMap nat_cmp V };

    ghost coded = { map.code coded_ℕ V.code };

    ghost view = { λ m. map.from_entries m.entries.entries };
}

impl<V: Drop> NumberMap<V> {
    /// An empty map. It takes no memory.
    pub fn new(alloc: Global) -> NumberMap<V>
        ensures { result ≡ map.empty }
    {
        NumberMap {
            entries: IndexMap::new(alloc),
        }
    }

    /// The value at a key. `None` exactly where the key isn't there.
    pub fn get(&self, key: u128) -> Option<&V>
        ensures { option_copied result ≡ map.get self.now key }
    {
        self.entries.get(&key)
    }

    /// Puts a value at a key, in place of one that is there. Memory is wanted only where the key isn't there; the map
    /// is unchanged then.
    pub fn insert(&mut self, key: u128, value: V) -> Result<(), AllocError>
        ensures ok { OnOk result (self.new ≡ map.insert self.old key value) }
        ensures err { OnErr result (self.new ≡ self.old) }
        ensures absent { OnErr result (map.get self.old key ≡ None) }
    {
        self.entries.insert(key, value)?;
        Ok(())
    }

    /// Puts a value in place of the one at a key that is there, and answers that one. It takes no memory.
    pub fn replace(&mut self, key: u128, value: V) -> V
        requires { IsSome (map.get self.old key) }
        ensures value { map.get self.old key ≡ Some result }
        ensures rest { self.new ≡ map.insert self.old key value }
    {
        match self.entries.insert(key, value) {
            Ok(Some(old)) => old,
            Ok(None) => unreachable!(),
            Err(_) => unreachable!(),
        }
    }

    /// Takes the value at a key out. `None` exactly where the key isn't there.
    pub fn remove(&mut self, key: u128) -> Option<V>
        ensures value { result ≡ map.get self.old key }
        ensures rest { self.new ≡ map.remove self.old key }
    {
        self.entries.swap_remove(&key)
    }
}

impl<V: Copy> NumberMap<V> {
    /// The keys with their values, in any order.
    pub fn pairs(&self, alloc: Global) -> Result<Vec<(u128, V)>, AllocError>
        ensures { IfOk result (λ list. IsPermutation (map.entries self.now) list.items) }
    {
        let mut list = Vec::new(alloc);
        for i in 0..self.entries.len() {
            let Some((key, value)) = self.entries.get_index(i) else {
                unreachable!();
            };
            list.push((*key, *value))?;
        }
        Ok(list)
    }
}

#[cfg(test)]
mod tests;
