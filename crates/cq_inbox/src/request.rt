// What a client asks.
ghost use Rattle.std.specs.Prelude.{◌≡◌, IfOk};

use cq_bytes::{Body, Queues};
use std::alloc::AllocError;

/// What a client asks of a node. A publish names at least one queue, and each queue is below 256.
#[derive(Clone, Debug, Drop)]
pub enum Request {
    /// Adds a message to each of these queues.
    Publish { queues: Queues, body: Body },
    /// Takes the next message of a queue.
    Get { queue: u32 },
    /// Acknowledges a delivery by its number.
    Ack { delivery: u32 },
    /// Gives back every delivery that isn't acknowledged.
    End,
}

impl Request {
    /// The same request once more.
    pub fn copy(&self) -> Result<Request, AllocError>
        ensures { IfOk result (λ copy. copy ≡ self.now) }
    {
        self.clone()
    }
}
