// What the looker does with a client's words.
ghost use Rattle.std.specs.Prelude.{◌≡◌, ◌≢◌, ◌+◌, ◌<◌, ◌++◌, [], ◌∷◌, length, Contains, MatchBool, MatchOption, slice_index, slice_set};
ghost use Rattle.std.specs.List.{AllWithin, HoldsAt};
ghost use Rattle.cq_inbox.specs.Flags.{IsFree, Joins, Leaves};
ghost use Rattle.cq_flying.specs.Ends.{words_id, look_end_id, seen_at, names, end_looks, opened, OpensLowest, IsLook};

use super::{ClientWords, LookEnd};
use crate::view::{Looks, Names};

impl LookEnd {
    /// The lowest word where none is written.
    fn free(&self) -> Option<usize>
        ensures { MatchOption result (AllWithin (λ n. 0 < n) (names self.now) 0 64)
            (λ i. (i < 64) × HoldsAt (λ n. n ≡ 0) (names self.now) i × AllWithin (λ n. 0 < n) (names self.now) 0 i) }
    {
        self.names.iter().position(|name| *name == 0)
    }

    /// The word where the delivery is written.
    fn place(&self, delivery: u32) -> Option<usize>
        ensures { MatchOption result (AllWithin (λ n. n ≢ delivery + 1) (names self.now) 0 64)
            (λ i. (i < 64) × HoldsAt (λ n. n ≡ delivery + 1) (names self.now) i) }
    {
        let name = delivery as u64 + 1;
        self.names.iter().position(|other| *other == name)
    }

    /// Opens the delivery in the lowest word that is none.
    pub fn open(&mut self, words: &ClientWords, delivery: u32)
        requires words { look_end_id self.old ≡ words_id words.now }
        requires free { IsFree delivery (opened (names self.old)) }
        ensures same { (look_end_id self.new ≡ look_end_id self.old) × (seen_at self.new ≡ seen_at self.old) }
        ensures lowest { OpensLowest delivery (names self.old) (names self.new) }
        ensures opened { Joins delivery (opened (names self.old)) (opened (names self.new)) }
    {
        let Some(word) = self.free() else {
            unreachable!()
        };
        let name = delivery as u64 + 1;
        words
            .table
            .shared
            .store::<Names>(&mut self.seat, word, 2 * name);
        self.names[word] = name;
    }

    /// Whether the delivery was dropped, by one load of its word.
    pub fn dropped(&mut self, words: &ClientWords, delivery: u32) -> bool
        requires words { look_end_id self.old ≡ words_id words.now }
        requires opened { Contains (opened (names self.old)) delivery }
        ensures same { (look_end_id self.new ≡ look_end_id self.old) × (names self.new ≡ names self.old) }
        ensures seen { MatchBool result (seen_at self.new ≡ seen_at self.old ++ delivery ∷ [])
            (seen_at self.new ≡ seen_at self.old) }
        ensures look { IsLook result delivery (names self.old) (end_looks self.old) (end_looks self.new) }
    {
        let Some(word) = self.place(delivery) else {
            unreachable!()
        };
        let gone = 2 * (delivery as u64 + 1) + 1;
        words.table.shared.load::<Looks>(&mut self.seat, word) == gone
    }

    /// Closes the delivery's word.
    pub fn close(&mut self, words: &ClientWords, delivery: u32)
        requires words { look_end_id self.old ≡ words_id words.now }
        requires opened { Contains (opened (names self.old)) delivery }
        ensures same { (look_end_id self.new ≡ look_end_id self.old) × (seen_at self.new ≡ seen_at self.old) }
        ensures opened { Leaves delivery (opened (names self.old)) (opened (names self.new)) }
    {
        let Some(word) = self.place(delivery) else {
            unreachable!()
        };
        words.table.shared.store::<Names>(&mut self.seat, word, 0);
        self.names[word] = 0;
    }
}
