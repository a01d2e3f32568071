// An inbox in memory.
ghost use Rattle.std.specs.Prelude.{◌≡◌, ◌≢◌, ◌<◌, ◌≤◌, ℕ, ◌++◌, ◌∷◌, [], length, IfOk, IfErr, OnOk, OnErr, ◌↔◌, IsOk, replicate};
ghost use Rattle.cq_inbox.specs.Requests.{IsRequest};
ghost use Rattle.cq_inbox.specs.Inbox.{held_of};

use crate::slots::Slots;
use crate::{Inbox, Request};
use std::alloc::{AllocError, Global};
use std::marker::Model;

/// Requests in memory, at most 64 of each client. A contract sees a list of requests for each client.
#[derive(Debug, Drop)]
pub struct PlainInbox {
    clients: Vec<Slots>,
}

impl Model for PlainInbox {
    ghost use Rattle.std.specs.Prelude.{List};
    ghost use Rattle.cq_inbox.specs.declared.request.Request.{Request};

    ghost Value = { List (List Request) };

    ghost view = { λ i. i.clients.items };
}

impl PlainInbox {
    /// An empty inbox for so many clients, with all the memory that it will need.
    pub fn new(alloc: Global, clients: u32) -> Result<PlainInbox, AllocError>
        requires { (1 ≤ clients) × (clients ≤ 64) }
        ensures { IfOk result (λ inbox. inbox ≡ replicate clients []) }
    {
        let mut slots = Vec::new(alloc);
        for _client in 0..clients {
            slots.push(Slots::new(alloc)?)?;
        }
        Ok(PlainInbox { clients: slots })
    }

    /// Holds a client's request. It comes back exactly where 64 are held of that client. It takes no memory.
    pub fn put(&mut self, client: u32, request: Request) -> Result<(), Request>
        requires client { client < length self.old }
        requires request { IsRequest request }
        ensures clients { length self.new ≡ length self.old }
        ensures room { IsOk result ↔ (length (held_of self.old client) < 64) }
        ensures ok { OnOk result (held_of self.new client ≡ held_of self.old client ++ request ∷ []) }
        ensures back { IfErr result (λ back. back ≡ request) }
        ensures err { OnErr result (held_of self.new client ≡ held_of self.old client) }
        ensures others { (c : ℕ) → c ≢ client → held_of self.new c ≡ held_of self.old c }
    {
        self.clients[client as usize].put(request)
    }
}

impl Inbox for PlainInbox {
    ghost use Rattle.std.specs.Prelude.{length, []};
    ghost use Rattle.cq_inbox.specs.Inbox.{held_of};

    ghost clients = { length };

    ghost tells_held = { Unit {0} };

    ghost held = { held_of };

    ghost tells_taken = { ⊥ };

    ghost taken = { λ i c. [] };

    fn next(&mut self, client: u32) -> Option<Request> {
        self.clients[client as usize].next()
    }
}
