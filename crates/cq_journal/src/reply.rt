// What a client is answered.
use cq_bytes::Body;

/// The answer to a client's request.
#[derive(Debug, Drop)]
pub enum Reply {
    /// The message has this number among the client's publishes.
    Published {
        number: u64,
    },
    /// The queue's next message, under this number among the client's deliveries.
    Got {
        delivery: u32,
        queue: u32,
        body: Body,
    },
    /// Nothing waits in the queue.
    Empty {
        queue: u32,
    },
    /// The client has 64 deliveries open.
    Busy {
        queue: u32,
    },
    /// The delivery is acknowledged.
    Acked {
        delivery: u32,
    },
    /// The client has no such delivery open.
    Unknown {
        delivery: u32,
    },
    /// What the client had open was given back.
    Ended,
}
