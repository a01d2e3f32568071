// The requests of a client, with their counts.
ghost use Rattle.std.specs.Prelude.{◌≡◌, ◌<◌, ◌++◌, ◌∷◌, [], OnOk, List};
ghost use Rattle.cq_inbox.specs.Requests.{publishes};
ghost use Rattle.cq_script.specs.Words.{gets};

use cq_inbox::Request;
use std::alloc::{AllocError, Global};
use std::marker::Model;

/// The requests of a client. A contract sees it as their list.
#[derive(Debug, Drop)]
pub struct Stream {
    requests: Vec<Request>,
    publishes: usize,
    gets: usize,
}

impl Model for Stream {
    ghost use Rattle.std.specs.Prelude.{List};
    ghost use Rattle.cq_inbox.specs.declared.request.Request.{Request};
    ghost use Rattle.cq_script.specs.Words.{IsCounted};

    ghost Value = { List Request };

    ghost view = { λ s. s.requests.items };

    ghost invariant = { λ s. IsCounted s.requests.items s.publishes s.gets };
}

impl Stream {
    /// No request.
    pub fn new(alloc: Global) -> Stream
        ensures { result ≡ [] }
    {
        Stream {
            requests: Vec::new(alloc),
            publishes: 0,
            gets: 0,
        }
    }

    /// How many publishes there are.
    pub fn publishes(&self) -> usize
        ensures { result ≡ publishes self.now }
    {
        self.publishes
    }

    /// How many gets there are.
    pub fn gets(&self) -> usize
        ensures { result ≡ gets self.now }
    {
        self.gets
    }

    /// Adds a publish.
    pub fn push_publish(&mut self, request: Request) -> Result<(), AllocError>
        requires few { publishes self.old < 4096 }
        requires publish { (publishes (request ∷ []) ≡ 1) × (gets (request ∷ []) ≡ 0) }
        ensures { OnOk result (self.new ≡ self.old ++ request ∷ []) }
    {
        self.requests.push(request)?;
        self.publishes += 1;
        Ok(())
    }

    /// Adds a get of a queue.
    pub fn push_get(&mut self, queue: u32) -> Result<(), AllocError>
        requires few { gets self.old < 64 }
        ensures { OnOk result (self.new ≡ self.old ++ Request.Get queue ∷ []) }
    {
        self.requests.push(Request::Get { queue })?;
        self.gets += 1;
        Ok(())
    }

    /// The requests. It takes no memory.
    pub fn into_vec(self) -> Vec<Request>
        ensures { result.items ≡ self }
    {
        self.requests
    }
}
