// Words in memory.
ghost use Rattle.std.specs.Prelude.{◌≡◌, ◌≢◌, ◌<◌, ◌≤◌, ◌↔◌, ◌⊎◌, ℕ, [], length, Contains, IfOk, MatchBool, replicate};
ghost use Rattle.std.specs.Bool.{OnTrue, OnFalse};
ghost use Rattle.cq_inbox.specs.Flags.{opened_of, words_of, IsDroppedOf};

use crate::Flags;
use crate::words::Words;
use std::alloc::{AllocError, Global};
use std::marker::Model;

/// Words in memory, at most 64 of each client. A contract sees a list of words for each client.
#[derive(Debug, Drop)]
pub struct PlainFlags {
    clients: Vec<Words>,
}

impl Model for PlainFlags {
    ghost use Rattle.std.specs.Prelude.{List};
    ghost use Rattle.cq_inbox.specs.declared.words.Word.{Word};

    ghost Value = { List (List Word) };

    ghost view = { λ f. f.clients.items };
}

impl PlainFlags {
    /// No words, for so many clients, with all the memory that they will need.
    pub fn new(alloc: Global, clients: u32) -> Result<PlainFlags, AllocError>
        requires { (1 ≤ clients) × (clients ≤ 64) }
        ensures { IfOk result (λ flags. flags ≡ replicate clients []) }
    {
        let mut words = Vec::new(alloc);
        for _client in 0..clients {
            words.push(Words::new(alloc)?)?;
        }
        Ok(PlainFlags { clients: words })
    }

    /// Drops a client's delivery. `false` exactly where it isn't open, or is dropped. It takes no memory.
    pub fn drop_delivery(&mut self, client: u32, delivery: u32) -> bool
        requires { client < length self.old }
        ensures clients { length self.new ≡ length self.old }
        ensures cause { MatchBool result (Contains (opened_of self.old client) delivery
            × ¬ IsDroppedOf self.old client delivery) ((¬ Contains (opened_of self.old client) delivery)
            ⊎ IsDroppedOf self.old client delivery) }
        ensures opened { (c : ℕ) → opened_of self.new c ≡ opened_of self.old c }
        ensures dropped { OnTrue result ((d : ℕ)
            → IsDroppedOf self.new client d ↔ (IsDroppedOf self.old client d ⊎ (d ≡ delivery))) }
        ensures same { OnFalse result (words_of self.new client ≡ words_of self.old client) }
        ensures others { (c : ℕ) → c ≢ client → words_of self.new c ≡ words_of self.old c }
    {
        self.clients[client as usize].drop_delivery(delivery)
    }
}

impl Flags for PlainFlags {
    ghost use Rattle.std.specs.Prelude.{length, []};
    ghost use Rattle.cq_inbox.specs.Flags.{opened_of, IsDroppedOf};

    ghost clients = { length };

    ghost opened = { opened_of };

    ghost tells_dropped = { Unit {0} };

    ghost is_dropped = { IsDroppedOf };

    ghost tells_seen = { ⊥ };

    ghost seen = { λ f c. [] };

    fn open_word(&mut self, client: u32, delivery: u32) {
        self.clients[client as usize].open(delivery);
    }

    fn dropped(&mut self, client: u32, delivery: u32) -> bool {
        self.clients[client as usize].is_dropped(delivery)
    }

    fn close_word(&mut self, client: u32, delivery: u32) {
        self.clients[client as usize].close(delivery);
    }
}
