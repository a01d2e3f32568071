// A drop.
ghost use Rattle.std.specs.Prelude.{◌≡◌, ◌≢◌, ℕ, ◌+◌, ◌*◌, ◌<◌, ◌++◌, [], ◌∷◌, MatchBool, ⊤};
ghost use Rattle.cq_flying.specs.Ends.{words_id, own_end_id, dropped_at, own_looks, own_tries, IsRefused};

use super::{ClientWords, OwnEnd};
use crate::view::{Loads, Tries};

impl OwnEnd {
    /// One load.
    fn load(&mut self, words: &ClientWords, word: usize) -> u64
        requires { (own_end_id self.old ≡ words_id words.now) × (word < 64) }
        ensures same { (own_end_id self.new ≡ own_end_id self.old) × (dropped_at self.new ≡ dropped_at self.old)
            × (own_tries self.new ≡ own_tries self.old) }
        ensures look { own_looks self.new ≡ own_looks self.old ++ (word, result) ∷ [] }
    {
        words.table.shared.load::<Loads>(&mut self.seat, word)
    }

    /// Drops the delivery at this word, where the word is out for it.
    fn drop_at(&mut self, words: &ClientWords, word: usize, delivery: u32) -> bool
        requires { (own_end_id self.old ≡ words_id words.now) × (word < 64) }
        ensures same { (own_end_id self.new ≡ own_end_id self.old) × (own_looks self.new ≡ own_looks self.old) }
        ensures done { MatchBool result (dropped_at self.new ≡ dropped_at self.old ++ delivery ∷ [])
            ((dropped_at self.new ≡ dropped_at self.old)
            × ((r : ℕ) × (r ≢ 2 * (delivery + 1)) × (own_tries self.new ≡ own_tries self.old ++ (word, r) ∷ []))) }
    {
        let out = 2 * (delivery as u64 + 1);
        words
            .table
            .shared
            .compare_exchange::<Tries>(&mut self.seat, word, out, out + 1)
            == out
    }

    /// Loads the words in rising order up to the first that is out for the delivery, and tries once to drop it there.
    pub fn drop_delivery(&mut self, words: &ClientWords, delivery: u32) -> bool
        requires { own_end_id self.old ≡ words_id words.now }
        ensures same { own_end_id self.new ≡ own_end_id self.old }
        ensures done { MatchBool result (dropped_at self.new ≡ dropped_at self.old ++ delivery ∷ [])
            (dropped_at self.new ≡ dropped_at self.old) }
        ensures cause { MatchBool result ⊤
            (IsRefused (2 * (delivery + 1)) (own_looks self.old) (own_looks self.new) (own_tries self.old)
            (own_tries self.new)) }
    {
        let out = 2 * (delivery as u64 + 1);
        for word in 0..64 {
            if self.load(words, word) == out {
                return self.drop_at(words, word, delivery);
            }
        }
        false
    }
}
