// The places of what waits.
ghost use Rattle.cq_items.specs.Line.{IsPut, is_first};
ghost use Rattle.cq_items.specs.Queue.{IsPlace, IsRising};
ghost use Rattle.std.specs.List.{insert};
ghost use Rattle.std.specs.VecDeque.{deque_capacity};
ghost use Rattle.std.specs.Prelude.{length, ◌≡◌, ◌<◌, ◌≤◌, ◌+◌, ◌++◌, ◌∷◌, [], OnOk, MatchOption, min, slice_get};

use crate::heap::number_of;
use std::alloc::{AllocError, Global};
use std::cmp::Reverse;
use std::collections::{BinaryHeap, VecDeque};
use std::marker::Model;

/// The places of what waits, rising.
#[derive(Debug, Drop)]
pub struct Line {
    /// The places of what was out and came back. All come before those that never left.
    back: BinaryHeap<Reverse<u32>>,
    /// The other places, rising.
    fresh: VecDeque<u32>,
}

impl Model for Line {
    ghost use Rattle.cq_items.specs.Line.{LineValue, ascending};
    ghost use Rattle.std.specs.BinaryHeap.{IsHeap, heap_items, heap_capacity};
    ghost use Rattle.std.specs.Ordering.{nat_cmp};
    ghost use Rattle.std.specs.VecDeque.{deque_capacity};
    ghost use Rattle.std.specs.Prelude.{min, ◌++◌};

    ghost Value = { LineValue };

    ghost view = { λ l. record { items = ascending (heap_items l.back) ++ l.fresh.items; room = min (heap_capacity l.back) (deque_capacity l.fresh) } };

    ghost invariant = { λ l. IsHeap (λ x y. nat_cmp y.0 x.0) (heap_items l.back) };
}

/// Where a place belongs among those that wait.
fn place_among(waiting: &VecDeque<u32>, at: u32) -> usize
    requires { IsRising waiting.now.items }
    ensures { IsPlace waiting.now.items at result }
{
    match waiting.binary_search(&at) {
        Ok(place) => place,
        Err(place) => place,
    }
}

/// Puts a place among those that wait.
fn put_at(waiting: &mut VecDeque<u32>, place: usize, at: u32)
    requires within { place ≤ length waiting.old.items }
    requires room { length waiting.old.items < deque_capacity waiting.old }
    ensures items { waiting.new.items ≡ insert waiting.old.items place at }
    ensures capacity { deque_capacity waiting.old ≤ deque_capacity waiting.new }
{
    match waiting.insert(place, at) {
        Ok(()) => {}
        Err(_) => {}
    }
}

/// Whether a place comes before all of these.
fn comes_first(waiting: &VecDeque<u32>, at: u32) -> bool
    ensures { result ≡ is_first at waiting.now.items }
{
    match waiting.front() {
        Some(first) => at <= *first,
        None => true,
    }
}

impl Line {
    /// No place.
    pub fn new(alloc: Global) -> Line
        ensures { result.items ≡ [] }
    {
        Line {
            back: BinaryHeap::new(alloc),
            fresh: VecDeque::new(alloc),
        }
    }

    /// How many places wait.
    pub fn len(&self) -> usize
        ensures { result ≡ length self.now.items }
    {
        self.back.len() + self.fresh.len()
    }

    /// For how many there is room in all.
    pub fn capacity(&self) -> usize
        ensures { result ≡ self.now.room }
    {
        self.back.capacity().min(self.fresh.capacity())
    }

    /// The first place. `None` exactly where there is none.
    pub fn first(&self) -> Option<u32>
        ensures { result ≡ slice_get self.now.items 0 }
    {
        match self.back.peek() {
            Some(top) => Some(number_of(top)),
            None => self.fresh.front().copied(),
        }
    }

    /// Takes the memory for so many more.
    pub fn reserve(&mut self, count: usize) -> Result<(), AllocError>
        ensures items { self.new.items ≡ self.old.items }
        ensures grows { self.old.room ≤ self.new.room }
        ensures ok { OnOk result (length self.new.items + count ≤ self.new.room) }
    {
        let (back, fresh) = (self.back.len(), self.fresh.len());
        self.back.reserve(fresh.saturating_add(count))?;
        self.fresh.reserve(back.saturating_add(count))?;
        Ok(())
    }

    /// Gives memory back, but for so many places in all.
    pub fn shrink_to(&mut self, count: usize)
        ensures items { self.new.items ≡ self.old.items }
        ensures room { min count self.old.room ≤ self.new.room }
    {
        self.back.shrink_to(count);
        self.fresh.shrink_to(count);
    }

    /// Takes all places out; the room stays.
    pub fn clear(&mut self)
        ensures items { self.new.items ≡ [] }
        ensures room { self.new.room ≡ self.old.room }
    {
        self.back.clear();
        self.fresh.clear();
    }

    /// One more place at the end.
    pub fn push(&mut self, at: u32)
        requires { length self.old.items < self.old.room }
        ensures items { self.new.items ≡ self.old.items ++ at ∷ [] }
        ensures room { self.new.room ≡ self.old.room }
    {
        self.fresh.push_back_reserved(at);
    }

    /// Takes the first place. `None` exactly where there is none.
    pub fn pop(&mut self) -> Option<u32>
        ensures items { MatchOption result ((self.new.items ≡ []) × (self.old.items ≡ []))
            (λ at. self.old.items ≡ at ∷ self.new.items) }
        ensures room { self.new.room ≡ self.old.room }
    {
        match self.back.pop() {
            Some(Reverse(at)) => Some(at),
            None => self.fresh.pop_front(),
        }
    }

    /// A place comes back to where it belongs.
    pub fn put_back(&mut self, at: u32)
        requires rising { IsRising self.old.items }
        requires room { length self.old.items < self.old.room }
        ensures put { IsPut at self.old.items self.new.items }
        ensures room { self.old.room ≤ self.new.room }
    {
        if comes_first(&self.fresh, at) {
            match self.back.push(Reverse(at)) {
                Ok(()) => {}
                Err(_) => {}
            }
        } else {
            let place = place_among(&self.fresh, at);
            put_at(&mut self.fresh, place, at);
        }
    }
}
