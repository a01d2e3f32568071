// The words that say which open deliveries were dropped.
ghost use Rattle.std.specs.Prelude.{◌≡◌, ◌≢◌, ◌<◌, ◌↔◌, ℕ, ◌++◌, ◌∷◌, [], List, length, Contains, IsTrue, MatchBool};
ghost use Rattle.cq_inbox.specs.Flags.{IsFree, Joins, Leaves};

/// A word for each open delivery of each client. The client may drop a delivery by its word before the
/// acknowledgement is served.
pub trait Flags {
    /// How many clients it was made for.
    ghost clients: { Self → ℕ };

    /// The open deliveries of each client, in any order.
    ghost opened: { Self → ℕ → List ℕ };

    /// Whether it tells which words are dropped. It depends on the type alone.
    ghost tells_dropped: { Type 0 };

    /// Whether the word of a client's delivery is dropped, where it tells.
    ghost is_dropped: { Self → ℕ → ℕ → Type 0 };

    /// Whether it tells what was seen dropped. It depends on the type alone.
    ghost tells_seen: { Type 0 };

    /// The deliveries of each client that were seen dropped, the oldest first, where it tells.
    ghost seen: { Self → ℕ → List ℕ };

    /// Opens a word for a delivery that has none. At most 64 words of a client are open.
    fn open_word(&mut self, client: u32, delivery: u32)
        requires client { client < clients self.old }
        requires free { IsFree delivery (opened self.old client) }
        ensures clients { clients self.new ≡ clients self.old }
        ensures opened { Joins delivery (opened self.old client) (opened self.new client) }
        ensures fresh { tells_dropped → ¬ is_dropped self.new client delivery }
        ensures dropped { tells_dropped → (c d : ℕ) → is_dropped self.new c d ↔ is_dropped self.old c d }
        ensures seen { (c : ℕ) → seen self.new c ≡ seen self.old c }
        ensures other_opened { (c : ℕ) → c ≢ client → opened self.new c ≡ opened self.old c };

    /// Whether the delivery was dropped, by a look at its word.
    fn dropped(&mut self, client: u32, delivery: u32) -> bool
        requires client { client < clients self.old }
        requires opened { Contains (opened self.old client) delivery }
        ensures clients { clients self.new ≡ clients self.old }
        ensures told { tells_dropped → IsTrue result ↔ is_dropped self.old client delivery }
        ensures opened { (c : ℕ) → opened self.new c ≡ opened self.old c }
        ensures dropped { tells_dropped → (c d : ℕ) → is_dropped self.new c d ↔ is_dropped self.old c d }
        ensures seen { tells_seen
            → MatchBool result (seen self.new client ≡ seen self.old client ++ delivery ∷ []) (seen self.new client ≡ seen self.old client) }
        ensures other_seen { (c : ℕ) → c ≢ client → seen self.new c ≡ seen self.old c };

    /// Closes the word of an open delivery.
    fn close_word(&mut self, client: u32, delivery: u32)
        requires client { client < clients self.old }
        requires opened { Contains (opened self.old client) delivery }
        ensures clients { clients self.new ≡ clients self.old }
        ensures opened { Leaves delivery (opened self.old client) (opened self.new client) }
        ensures dropped { tells_dropped → (d : ℕ)
            → is_dropped self.new client d ↔ (is_dropped self.old client d × (d ≢ delivery)) }
        ensures seen { (c : ℕ) → seen self.new c ≡ seen self.old c }
        ensures other_opened { (c : ℕ) → c ≢ client → opened self.new c ≡ opened self.old c }
        ensures other_dropped { tells_dropped → (c d : ℕ) → c ≢ client
            → is_dropped self.new c d ↔ is_dropped self.old c d };
}
