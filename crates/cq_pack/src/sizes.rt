// The sizes of holes.
ghost use Rattle.std.specs.Prelude.{◌≡◌, ◌≢◌, ℕ, ◌+◌, ◌-◌, ◌*◌, ◌^◌, ◌<◌, ◌≤◌, true, false, length, take, slice_index, slice_set, IfOk, IfSome, OnOk, IfNone, MatchOption};
ghost use Rattle.std.specs.Ordering.{nat_cmp};
ghost use Rattle.std.specs.BTreeSet.{contains};
ghost use Rattle.cq_pack.specs.Holes.{IsLowest, NoneTakes, hole_key, IsFirstOf, NoneIs};

use crate::greatest::Greatest;
use std::alloc::{AllocError, Global};
use std::collections::BTreeSet;
use std::marker::Model;

/// How many holes there may be.
const PLACES: u128 = 1 << 64;

/// The sizes of holes, in order, of which the lowest one that may take a record is found without a look at them all. A
/// contract sees them as a list.
#[derive(Drop)]
pub(crate) struct Sizes {
    sizes: Vec<u64>,
    greatest: Greatest,
    /// For each hole its size and its place in the order, as one number.
    keys: BTreeSet<u128>,
}

impl Model for Sizes {
    ghost use Rattle.std.specs.Prelude.{ℕ, List};
    ghost use Rattle.cq_pack.specs.Holes.{AreIndexed};

    ghost Value = { List ℕ };

    ghost view = { λ s. s.sizes.items };

    ghost invariant = { λ s. AreIndexed s.sizes.items s.greatest s.keys };
}

/// The key of a hole of a size.
fn key(size: u64, hole: usize) -> u128
    ensures { result ≡ hole_key size hole }
{
    u128::from(size) * PLACES + hole as u128
}

/// The first key from a number on. `None` exactly where there is none.
fn first_from(keys: &BTreeSet<u128>, from: u128) -> Option<u128>
    ensures none { IfNone result ((q : ℕ) → from ≤ q → contains nat_cmp keys.now q ≡ false) }
    ensures there { IfSome result (λ k. contains nat_cmp keys.now k ≡ true) }
    ensures from { IfSome result (λ k. from ≤ k) }
    ensures least { IfSome result (λ k. (q : ℕ) → from ≤ q → contains nat_cmp keys.now q ≡ true → k ≤ q) }
{
    keys.range(from..).next().copied()
}

impl Sizes {
    /// Holes of these sizes.
    pub(crate) fn of(alloc: Global, sizes: Vec<u64>) -> Result<Sizes, AllocError>
        ensures { IfOk result (λ s. s ≡ sizes.items) }
    {
        let mut greatest = Greatest::new(alloc, sizes.len())?;
        let mut keys = BTreeSet::new(alloc);
        for (hole, size) in sizes.iter().enumerate() {
            keys.insert(key(*size, hole))?;
            greatest.set(hole, *size);
        }
        Ok(Sizes {
            sizes,
            greatest,
            keys,
        })
    }

    /// The lowest hole of this size. `None` exactly where there is none.
    fn exact(&self, size: u64) -> Option<usize>
        ensures { MatchOption result (NoneIs size self.now) (IsFirstOf size self.now) }
    {
        let found = first_from(&self.keys, key(size, 0))?;
        if found / PLACES == u128::from(size) {
            Some((found % PLACES) as usize)
        } else {
            None
        }
    }

    /// The lowest hole that may take a record of this length. `None` exactly where none may.
    pub(crate) fn lowest(&self, len: u64) -> Option<usize>
        requires { len + 25 < 2 ^ 64 }
        ensures { MatchOption result (NoneTakes len self.now) (IsLowest len self.now) }
    {
        let exact = self.exact(len);
        let larger = self.greatest.first(len + 25);
        match (exact, larger) {
            (Some(exact), Some(larger)) => Some(exact.min(larger)),
            (Some(exact), None) => Some(exact),
            (None, larger) => larger,
        }
    }

    /// Takes so many bytes from a hole.
    pub(crate) fn shrink(&mut self, hole: usize, len: u64) -> Result<(), AllocError>
        requires within { hole < length self.old }
        requires some { 0 < len }
        requires room { len ≤ slice_index self.old hole }
        ensures { OnOk result (self.new ≡ slice_set self.old hole (slice_index self.old hole - len)) }
    {
        let old = self.sizes[hole];
        let new = old - len;
        self.keys.insert(key(new, hole))?;
        self.keys.remove(&key(old, hole));
        self.greatest.set(hole, new);
        self.sizes[hole] = new;
        Ok(())
    }

    /// Drops the last hole.
    pub(crate) fn drop_last(&mut self)
        requires { 0 < length self.old }
        ensures { self.new ≡ take (length self.old - 1) self.old }
    {
        let last = self.sizes.len() - 1;
        self.keys.remove(&key(self.sizes[last], last));
        self.greatest.set(last, 0);
        self.sizes.pop();
    }
}
