// The node's ends of all words, with the words.
ghost use Rattle.std.specs.Prelude.{◌≡◌, ◌≢◌, ◌<◌, ◌↔◌, ◌++◌, ◌∷◌, [], ℕ, length, Contains, IsTrue, MatchBool};
ghost use Rattle.cq_inbox.specs.Flags.{IsFree, Joins, Leaves};
ghost use Rattle.cq_flying.specs.Ends.{IsLook, LooksOnce, OpensLowest};
ghost use Rattle.cq_flying.specs.Words.{word_ids, seat_ids, names_of, opened_of, seen_of, looks_of};

use crate::words::{WordSeats, Words};
use cq_inbox::{Flags, TableName};
use std::marker::PhantomData;

/// Opens, looks at and closes the words of all clients. It may stand behind a lock: it keeps that its ends are those of
/// the words that `N` names. None of its calls takes a lock or memory.
pub struct Looker<'a, N: TableName> {
    words: &'a Words,
    seats: WordSeats,
    name: PhantomData<N>,
    ghost words_named: { word_ids words.now ≡ N.tables },
    ghost seats_named: { seat_ids seats ≡ N.tables },
}

impl<'a, N: TableName> Looker<'a, N> {
    /// A looker over these words.
    pub fn new(words: &'a Words, seats: WordSeats) -> Looker<'a, N>
        requires words { word_ids words.now ≡ N.tables }
        requires seats { seat_ids seats ≡ N.tables }
        ensures { result.seats ≡ seats }
    {
        Looker {
            words,
            seats,
            name: PhantomData,
        }
    }

    /// The ends come out again.
    pub fn into_seats(self) -> WordSeats
        ensures ends { seat_ids result ≡ N.tables }
        ensures same { result ≡ self.entry.seats }
    {
        let Looker {
            words: _,
            seats,
            name: _,
        } = self;
        seats
    }
}

impl<'a, N: TableName> Drop for Looker<'a, N> {
    fn drop(self) {
        let Self {
            words: _,
            seats: _,
            name: _,
        } = self;
    }
}

impl<'a, N: TableName> Flags for Looker<'a, N> {
    ghost use Rattle.std.specs.Prelude.{length};

    ghost clients = { λ l. length (seat_ids l.seats) };

    ghost opened = { λ l c. opened_of l.seats c };

    ghost tells_dropped = { ⊥ };

    ghost is_dropped = { λ l c d. ⊥ };

    ghost tells_seen = { Unit {0} };

    ghost seen = { λ l c. seen_of l.seats c };

    fn open_word(&mut self, client: u32, delivery: u32)
        requires client { client < length (seat_ids self.old.seats) }
        requires free { IsFree delivery (opened_of self.old.seats client) }
        ensures clients { length (seat_ids self.new.seats) ≡ length (seat_ids self.old.seats) }
        ensures opened { Joins delivery (opened_of self.old.seats client) (opened_of self.new.seats client) }
        ensures fresh { ⊥ → ¬ ⊥ }
        ensures dropped { ⊥ → (c d : ℕ) → ⊥ ↔ ⊥ }
        ensures seen { (c : ℕ) → seen_of self.new.seats c ≡ seen_of self.old.seats c }
        ensures other_opened { (c : ℕ) → c ≢ client → opened_of self.new.seats c ≡ opened_of self.old.seats c }
        ensures lowest { OpensLowest delivery (names_of self.old.seats client) (names_of self.new.seats client) }
    {
        self.seats.open(self.words, client, delivery);
    }

    /// Whether the delivery was dropped, by one load of its word: `true` exactly where the word that this load found
    /// says so.
    fn dropped(&mut self, client: u32, delivery: u32) -> bool
        requires client { client < length (seat_ids self.old.seats) }
        requires opened { Contains (opened_of self.old.seats client) delivery }
        ensures clients { length (seat_ids self.new.seats) ≡ length (seat_ids self.old.seats) }
        ensures told { ⊥ → IsTrue result ↔ ⊥ }
        ensures opened { (c : ℕ) → opened_of self.new.seats c ≡ opened_of self.old.seats c }
        ensures dropped { ⊥ → (c d : ℕ) → ⊥ ↔ ⊥ }
        ensures seen { MatchBool result
            (seen_of self.new.seats client ≡ seen_of self.old.seats client ++ delivery ∷ [])
            (seen_of self.new.seats client ≡ seen_of self.old.seats client) }
        ensures other_seen { (c : ℕ) → c ≢ client → seen_of self.new.seats c ≡ seen_of self.old.seats c }
        ensures looks { LooksOnce client (IsLook result delivery (names_of self.old.seats client))
            (looks_of self.old.seats) (looks_of self.new.seats) }
    {
        self.seats.dropped(self.words, client, delivery)
    }

    fn close_word(&mut self, client: u32, delivery: u32) {
        self.seats.close(self.words, client, delivery);
    }
}
