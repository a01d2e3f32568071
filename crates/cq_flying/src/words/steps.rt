// What a client and the node do with the words of any client.
ghost use Rattle.std.specs.Prelude.{◌≡◌, ◌≢◌, ℕ, ◌+◌, ◌*◌, ◌++◌, ◌<◌, [], ◌∷◌, length, Contains, MatchBool, ⊤};
ghost use Rattle.cq_inbox.specs.Flags.{IsFree, Joins, Leaves};
ghost use Rattle.cq_flying.specs.Ends.{IsRefused, OpensLowest, IsLook, LooksOnce};
ghost use Rattle.cq_flying.specs.Words.{word_ids, seat_ids, IsOwnerOf, own_id, dropped_by, looks_by, tries_by, names_of, opened_of, seen_of, looks_of};

use super::{Owner, WordSeats, Words};

impl Owner {
    /// Drops a delivery: `true` exactly where it was dropped in this call. `false` only where this call loaded all 64
    /// words of its client and none was out for the delivery, or where it loaded one that was, and then the compare and
    /// exchange found another word there. It takes no lock and no memory.
    pub fn drop_delivery(&mut self, words: &Words, delivery: u32) -> bool
        requires { IsOwnerOf words.now self.old }
        ensures same { IsOwnerOf words.now self.new × (own_id self.new ≡ own_id self.old) }
        ensures done { MatchBool result (dropped_by self.new ≡ dropped_by self.old ++ delivery ∷ [])
            (dropped_by self.new ≡ dropped_by self.old) }
        ensures cause { MatchBool result ⊤
            (IsRefused (2 * (delivery + 1)) (looks_by self.old) (looks_by self.new) (tries_by self.old)
            (tries_by self.new)) }
    {
        let client = &words.clients[self.client as usize];
        self.end.drop_delivery(client, delivery)
    }
}

impl WordSeats {
    /// Opens a client's delivery in the lowest word that is none.
    pub(crate) fn open(&mut self, words: &Words, client: u32, delivery: u32)
        requires seats { seat_ids self.old ≡ word_ids words.now }
        requires client { client < length (seat_ids self.old) }
        requires free { IsFree delivery (opened_of self.old client) }
        ensures seats { seat_ids self.new ≡ seat_ids self.old }
        ensures opened { Joins delivery (opened_of self.old client) (opened_of self.new client) }
        ensures lowest { OpensLowest delivery (names_of self.old client) (names_of self.new client) }
        ensures seen { (c : ℕ) → seen_of self.new c ≡ seen_of self.old c }
        ensures others { (c : ℕ) → c ≢ client → names_of self.new c ≡ names_of self.old c }
    {
        let one = &words.clients[client as usize];
        self.ends[client as usize].open(one, delivery);
    }

    /// Whether a client's delivery was dropped, by one load of its word.
    pub(crate) fn dropped(&mut self, words: &Words, client: u32, delivery: u32) -> bool
        requires seats { seat_ids self.old ≡ word_ids words.now }
        requires client { client < length (seat_ids self.old) }
        requires opened { Contains (opened_of self.old client) delivery }
        ensures seats { seat_ids self.new ≡ seat_ids self.old }
        ensures names { (c : ℕ) → names_of self.new c ≡ names_of self.old c }
        ensures seen { MatchBool result (seen_of self.new client ≡ seen_of self.old client ++ delivery ∷ [])
            (seen_of self.new client ≡ seen_of self.old client) }
        ensures looks { LooksOnce client (IsLook result delivery (names_of self.old client)) (looks_of self.old)
            (looks_of self.new) }
        ensures others { (c : ℕ) → c ≢ client → seen_of self.new c ≡ seen_of self.old c }
    {
        let one = &words.clients[client as usize];
        self.ends[client as usize].dropped(one, delivery)
    }

    /// Closes the word of a client's delivery.
    pub(crate) fn close(&mut self, words: &Words, client: u32, delivery: u32)
        requires seats { seat_ids self.old ≡ word_ids words.now }
        requires client { client < length (seat_ids self.old) }
        requires opened { Contains (opened_of self.old client) delivery }
        ensures seats { seat_ids self.new ≡ seat_ids self.old }
        ensures opened { Leaves delivery (opened_of self.old client) (opened_of self.new client) }
        ensures seen { (c : ℕ) → seen_of self.new c ≡ seen_of self.old c }
        ensures others { (c : ℕ) → c ≢ client → names_of self.new c ≡ names_of self.old c }
    {
        let one = &words.clients[client as usize];
        self.ends[client as usize].close(one, delivery);
    }
}
