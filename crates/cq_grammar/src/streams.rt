// The requests of all clients, with the size of their bodies.
ghost use Rattle.std.specs.Prelude.{◌≡◌, ◌≤◌, ◌<◌, ◌+◌, ◌++◌, ◌∷◌, [], length, map, take, replicate, IfOk, OnOk, slice_set};
ghost use Rattle.cq_grammar.specs.Calls.{Gives};
ghost use Rattle.cq_grammar.specs.Requests.{size_of, requests_of, with_request, whole_size};

use crate::error::LineError;
use crate::{Streams, Why};
use cq_inbox::Request;
use std::alloc::{AllocError, Global};
use std::marker::Model;

/// How many requests a client may have.
const MOST_REQUESTS: usize = 100_000;

/// How many bytes the bodies of all requests may have, counted once for each queue.
const MOST_BODIES: u64 = 268_435_456;

/// How many clients there may be.
const MOST_CLIENTS: u32 = 64;

/// The requests of each of 64 clients so far. A contract sees a list of requests for each client.
#[derive(Debug, Drop)]
pub struct Asked {
    streams: Vec<Vec<Request>>,
    size: u64,
}

impl Model for Asked {
    ghost use Rattle.std.specs.Prelude.{List, map};
    ghost use Rattle.cq_inbox.specs.declared.request.Request.{Request};
    ghost use Rattle.cq_grammar.specs.Requests.{IsSized};

    ghost Value = { List (List Request) };

    ghost view = { λ a. map (λ v. v.items) a.streams.items };

    ghost invariant = { λ a. IsSized (map (λ v. v.items) a.streams.items) a.size };
}

/// How many bytes of bodies a request brings, counted once for each queue.
fn size_of(request: &Request) -> u64
    ensures same { result ≡ size_of request.now }
    ensures small { result ≤ 268435456 }
{
    match request {
        Request::Publish { queues, body } => {
            queues.numbers().len() as u64 * body.bytes().len() as u64
        }
        Request::Get { .. } | Request::Ack { .. } | Request::End => 0,
    }
}

/// No request of any of the 64 clients.
fn no_requests(alloc: Global) -> Result<Vec<Vec<Request>>, AllocError>
    ensures { IfOk result (λ v. map (λ requests. requests.items) v.items ≡ replicate 64 []) }
{
    let mut streams = Vec::new(alloc);
    for _client in 0..MOST_CLIENTS {
        streams.push(Vec::new(alloc))?;
    }
    Ok(streams)
}

impl Asked {
    /// No request.
    pub fn new(alloc: Global) -> Result<Asked, AllocError>
        ensures { IfOk result (λ asked. asked ≡ replicate 64 []) }
    {
        Ok(Asked {
            streams: no_requests(alloc)?,
            size: 0,
        })
    }

    /// The requests of so many clients. It takes no memory.
    pub fn into_streams(self, clients: u32) -> Streams
        ensures { result ≡ take clients self }
    {
        let mut streams = self.streams;
        streams.truncate(clients as usize);
        Streams::from_vec(streams)
    }

    /// Adds a request of a client, where it may have one more. A client that isn't there has none.
    pub fn add(&mut self, client: u32, request: Request) -> Result<(), LineError>
        ensures { Gives result self.new (with_request self.old client request) }
    {
        if self.count(client) >= MOST_REQUESTS {
            return Err(LineError::Bad(Why::Many));
        }
        let size = size_of(&request);
        if self.size + size > MOST_BODIES {
            return Err(LineError::Bad(Why::Large));
        }
        if let Some(requests) = self.streams.get_mut(client as usize) {
            if requests.push(request).is_err() {
                return Err(LineError::Memory);
            }
            self.size += size;
        }
        Ok(())
    }

    /// How many requests a client has.
    fn count(&self, client: u32) -> usize
        ensures { result ≡ length (requests_of self.now client) }
    {
        match self.streams.get(client as usize) {
            Some(requests) => requests.len(),
            None => 0,
        }
    }
}
