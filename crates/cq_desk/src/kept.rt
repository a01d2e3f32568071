// Requests that were taken and not answered.
ghost use Rattle.std.specs.Prelude.{◌≡◌, ◌<◌, ℕ, length, Some, None, IsSome, IfOk, IfSome, replicate};
ghost use Rattle.std.specs.Option.{option_copied};
ghost use Rattle.cq_inbox.specs.Requests.{IsRequest};
ghost use Rattle.cq_desk.specs.Desk.{IsKind, MayKeep, OthersKept, kept_of};

use cq_inbox::Request;
use std::alloc::{AllocError, Global};
use std::marker::Model;

/// A place for one request of each client. A contract sees the list of places.
#[derive(Debug, Drop)]
pub struct Kept {
    places: Vec<Option<Request>>,
}

/// Of which kind a request is, with the numbers that it names.
#[derive(Clone, Copy, Debug, PartialEq, Eq)]
pub enum Kind {
    /// A publish.
    Publish,
    /// A get of this queue, below 256.
    Get {
        /// The queue.
        queue: u32,
    },
    /// An acknowledgement of this delivery.
    Ack {
        /// The number among the client's deliveries.
        delivery: u32,
    },
    /// The client's end.
    End,
}

impl Model for Kept {
    ghost use Rattle.std.specs.Prelude.{List, Option};
    ghost use Rattle.std.specs.List.{AllByRecursion};
    ghost use Rattle.cq_inbox.specs.declared.request.Request.{Request};
    ghost use Rattle.cq_desk.specs.Desk.{MayKeep};

    ghost Value = { List (Option Request) };

    ghost view = { λ k. k.places.items };

    ghost invariant = { λ k. AllByRecursion MayKeep k.places.items };
}

impl Kept {
    /// Empty places for so many clients.
    pub fn new(alloc: Global, clients: u32) -> Result<Kept, AllocError>
        ensures { IfOk result (λ kept. kept ≡ replicate clients None) }
    {
        let mut places = Vec::new(alloc);
        for _client in 0..clients {
            places.push(None)?;
        }
        Ok(Kept { places })
    }

    /// The request of a client. One that is there can be answered.
    pub fn get(&self, client: u32) -> Option<&Request>
        requires { client < length self.now }
        ensures kept { option_copied result ≡ kept_of self.now client }
        ensures request { MayKeep (kept_of self.now client) }
    {
        self.places[client as usize].as_ref()
    }

    /// Of which kind a client's request is, which is there.
    pub fn kind(&self, client: u32) -> Kind
        requires client { client < length self.now }
        requires some { IsSome (kept_of self.now client) }
        ensures { IsKind result (kept_of self.now client) }
    {
        match self.get(client) {
            Some(Request::Publish { .. }) => Kind::Publish,
            Some(Request::Get { queue }) => Kind::Get { queue: *queue },
            Some(Request::Ack { delivery }) => Kind::Ack {
                delivery: *delivery,
            },
            Some(Request::End) => Kind::End,
            None => unreachable!(),
        }
    }

    /// Takes the request of a client out.
    pub fn take(&mut self, client: u32) -> Option<Request>
        requires { client < length self.old }
        ensures was { result ≡ kept_of self.old client }
        ensures request { IfSome result IsRequest }
        ensures none { kept_of self.new client ≡ None }
        ensures others { OthersKept client self.old self.new }
    {
        self.places[client as usize].take()
    }

    /// Puts a request of a client there.
    pub fn put(&mut self, client: u32, request: Request)
        requires client { client < length self.old }
        requires request { IsRequest request }
        ensures kept { kept_of self.new client ≡ Some request }
        ensures others { OthersKept client self.old self.new }
    {
        self.places[client as usize] = Some(request);
    }
}
