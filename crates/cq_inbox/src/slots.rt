// The requests that one client has put and the node hasn't taken.
ghost use Rattle.std.specs.Prelude.{◌≡◌, ◌<◌, ◌≤◌, ◌++◌, ◌∷◌, [], length, IfOk, IfErr, IfSome, OnOk, OnErr, IsErr, ◌↔◌, IsOk};
ghost use Rattle.cq_inbox.specs.Requests.{IsRequest};
ghost use Rattle.cq_inbox.specs.Inbox.{HandsOut};

use crate::Request;
use std::alloc::{AllocError, Global};
use std::collections::VecDeque;
use std::marker::Model;

/// How many requests a client may have put that weren't taken.
const MOST_HELD: usize = 64;

/// Places for 64 requests. A contract sees the list of those that are held, the oldest first.
#[derive(Debug, Drop)]
pub struct Slots {
    requests: VecDeque<Request>,
}

impl Model for Slots {
    ghost use Rattle.std.specs.Prelude.{List};
    ghost use Rattle.cq_inbox.specs.declared.request.Request.{Request};
    ghost use Rattle.cq_inbox.specs.Inbox.{IsHeld};
    ghost use Rattle.std.specs.VecDeque.{deque_capacity};

    ghost Value = { List Request };

    ghost view = { λ s. s.requests.items };

    ghost invariant = { λ s. IsHeld s.requests.items (deque_capacity s.requests) };
}

impl Slots {
    /// Empty places, with all the memory that they will need.
    pub fn new(alloc: Global) -> Result<Slots, AllocError>
        ensures { IfOk result (λ slots. slots ≡ []) }
    {
        let mut requests = VecDeque::new(alloc);
        requests.reserve(MOST_HELD)?;
        Ok(Slots { requests })
    }

    /// Holds a request. It comes back exactly where 64 are held.
    pub fn put(&mut self, request: Request) -> Result<(), Request>
        requires { IsRequest request }
        ensures room { IsOk result ↔ (length self.old < 64) }
        ensures ok { OnOk result (self.new ≡ self.old ++ request ∷ []) }
        ensures back { IfErr result (λ back. back ≡ request) }
        ensures err { OnErr result (self.new ≡ self.old) }
    {
        if self.requests.len() >= MOST_HELD {
            return Err(request);
        }
        self.requests.push_back_reserved(request);
        Ok(())
    }

    /// Hands out the oldest request. `None` exactly where none is held.
    pub fn next(&mut self) -> Option<Request>
        ensures request { IfSome result IsRequest }
        ensures held { HandsOut result self.old self.new }
    {
        self.requests.pop_front()
    }
}
