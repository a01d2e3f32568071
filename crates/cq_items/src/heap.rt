// Places in order, whatever the order in which they came.
ghost use Rattle.cq_items.specs.Line.{put_in};
ghost use Rattle.std.specs.Prelude.{length, drop, ◌≡◌, ◌<◌, ◌≤◌, ◌+◌, ◌^◌, [], OnOk, min, slice_get};

use std::alloc::{AllocError, Global};
use std::cmp::Reverse;
use std::collections::BinaryHeap;
use std::marker::Model;

/// Places of a queue's messages, rising, whatever the order in which they came.
#[derive(Debug, Drop)]
pub struct Heap {
    places: BinaryHeap<Reverse<u32>>,
}

impl Model for Heap {
    ghost use Rattle.cq_items.specs.Line.{LineValue, ascending};
    ghost use Rattle.std.specs.BinaryHeap.{IsHeap, heap_items, heap_capacity};
    ghost use Rattle.std.specs.Ordering.{nat_cmp};

    ghost Value = { LineValue };

    ghost view = { λ h. record { items = ascending (heap_items h.places); room = heap_capacity h.places } };

    ghost invariant = { λ h. IsHeap (λ x y. nat_cmp y.0 x.0) (heap_items h.places) };
}

/// The place that a heap keeps in reverse.
pub(crate) fn number_of(top: &Reverse<u32>) -> u32
    ensures { result ≡ top.now.0 }
{
    top.0
}

impl Heap {
    /// No place. It takes no memory.
    pub fn new(alloc: Global) -> Heap
        ensures { result.items ≡ [] }
    {
        Heap {
            places: BinaryHeap::new(alloc),
        }
    }

    /// How many places there are.
    pub fn len(&self) -> usize
        ensures { result ≡ length self.now.items }
    {
        self.places.len()
    }

    /// For how many there is room in all.
    pub fn capacity(&self) -> usize
        ensures { result ≡ self.now.room }
    {
        self.places.capacity()
    }

    /// The first place. `None` exactly where there is none.
    pub fn first(&self) -> Option<u32>
        ensures { result ≡ slice_get self.now.items 0 }
    {
        match self.places.peek() {
            Some(top) => Some(number_of(top)),
            None => None,
        }
    }

    /// Takes the memory for so many more.
    pub fn reserve(&mut self, count: usize) -> Result<(), AllocError>
        ensures items { self.new.items ≡ self.old.items }
        ensures grows { self.old.room ≤ self.new.room }
        ensures ok { OnOk result (length self.new.items + count ≤ self.new.room) }
        ensures fits { self.new.room < 2 ^ 63 }
    {
        self.places.reserve(count)
    }

    /// Gives memory back, but for so many places in all.
    pub fn shrink_to(&mut self, count: usize)
        ensures items { self.new.items ≡ self.old.items }
        ensures room { min count self.old.room ≤ self.new.room }
    {
        self.places.shrink_to(count);
    }

    /// Takes all places out; the room stays.
    pub fn clear(&mut self)
        ensures items { self.new.items ≡ [] }
        ensures room { self.new.room ≡ self.old.room }
    {
        self.places.clear();
    }

    /// One more place.
    pub fn put(&mut self, at: u32)
        requires { length self.old.items < self.old.room }
        ensures items { self.new.items ≡ put_in at self.old.items }
        ensures room { self.old.room ≤ self.new.room }
    {
        match self.places.push(Reverse(at)) {
            Ok(()) => {}
            Err(_) => {}
        }
    }

    /// Takes the first place out, where there is one.
    pub fn drop_first(&mut self)
        ensures items { self.new.items ≡ drop 1 self.old.items }
        ensures room { self.new.room ≡ self.old.room }
    {
        match self.places.pop() {
            Some(_) => {}
            None => {}
        }
    }
}
