// The words of one client's open deliveries.
ghost use Rattle.std.specs.Prelude.{◌≡◌, ◌≢◌, ◌<◌, ◌↔◌, ◌⊎◌, ℕ, [], length, Contains, IfOk, IsTrue, MatchBool, MatchOption};
ghost use Rattle.std.specs.Bool.{OnTrue, OnFalse};
ghost use Rattle.std.specs.List.{AllWithin, HoldsAt};
ghost use Rattle.cq_inbox.specs.Flags.{deliveries, IsDropped, Joins, Leaves};

use std::alloc::{AllocError, Global};
use std::marker::Model;

/// How many words of a client may be open.
const MOST_OPEN: usize = 64;

/// The word of an open delivery: whether the client has dropped it.
#[derive(Clone, Copy, Debug)]
pub struct Word {
    pub delivery: u32,
    pub dropped: bool,
}

/// Places for 64 words. A contract sees the list of those that are open.
#[derive(Debug, Drop)]
pub struct Words {
    words: Vec<Word>,
}

impl Model for Words {
    ghost use Rattle.std.specs.Prelude.{List, vec_capacity};
    ghost use Rattle.cq_inbox.specs.declared.words.Word.{Word};
    ghost use Rattle.cq_inbox.specs.Flags.{AreWords};

    ghost Value = { List Word };

    ghost view = { λ w. w.words.items };

    ghost invariant = { λ w. AreWords w.words.items (vec_capacity w.words) };
}

impl Words {
    /// No words, with all the memory that they will need.
    pub fn new(alloc: Global) -> Result<Words, AllocError>
        ensures { IfOk result (λ words. words ≡ []) }
    {
        Ok(Words {
            words: Vec::with_capacity(alloc, MOST_OPEN)?,
        })
    }

    /// The place of a delivery's word. `None` exactly where it isn't open.
    fn place(&self, delivery: u32) -> Option<usize>
        ensures { MatchOption result (AllWithin (λ w. w.delivery ≢ delivery) self.now 0 (length self.now))
            (λ i. (i < length self.now) × HoldsAt (λ w. w.delivery ≡ delivery) self.now i) }
    {
        self.words.iter().position(|word| word.delivery == delivery)
    }

    /// Opens a word.
    pub fn open(&mut self, delivery: u32)
        requires room { length self.old < 64 }
        requires fresh { ¬ Contains (deliveries self.old) delivery }
        ensures opened { Joins delivery (deliveries self.old) (deliveries self.new) }
        ensures fresh { ¬ IsDropped self.new delivery }
        ensures dropped { (d : ℕ) → IsDropped self.new d ↔ IsDropped self.old d }
    {
        self.words.push_reserved(Word {
            delivery,
            dropped: false,
        });
    }

    /// Whether the word of an open delivery is dropped.
    pub fn is_dropped(&self, delivery: u32) -> bool
        requires { Contains (deliveries self.now) delivery }
        ensures { IsTrue result ↔ IsDropped self.now delivery }
    {
        match self.place(delivery) {
            Some(place) => self.words[place].dropped,
            None => false,
        }
    }

    /// Drops a delivery. `false` exactly where it isn't open, or is dropped.
    pub fn drop_delivery(&mut self, delivery: u32) -> bool
        ensures cause { MatchBool result (Contains (deliveries self.old) delivery
            × ¬ IsDropped self.old delivery) ((¬ Contains (deliveries self.old) delivery)
            ⊎ IsDropped self.old delivery) }
        ensures opened { deliveries self.new ≡ deliveries self.old }
        ensures dropped { OnTrue result ((d : ℕ) → IsDropped self.new d ↔ (IsDropped self.old d ⊎ (d ≡ delivery))) }
        ensures same { OnFalse result (self.new ≡ self.old) }
    {
        let Some(place) = self.place(delivery) else {
            return false;
        };
        if self.words[place].dropped {
            return false;
        }
        self.words[place].dropped = true;
        true
    }

    /// Closes the word of an open delivery.
    pub fn close(&mut self, delivery: u32)
        requires { Contains (deliveries self.old) delivery }
        ensures opened { Leaves delivery (deliveries self.old) (deliveries self.new) }
        ensures dropped { (d : ℕ) → IsDropped self.new d ↔ (IsDropped self.old d × (d ≢ delivery)) }
    {
        if let Some(place) = self.place(delivery) {
            self.words.remove(place);
        }
    }
}
