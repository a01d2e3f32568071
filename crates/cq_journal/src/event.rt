// What happens in a node.
use crate::Lines;
use cq_bytes::{Body, Queues};

/// A message of a queue: an id, which isn't 0, and a body.
#[derive(Debug, Drop)]
pub struct Message {
    pub id: u128,
    pub body: Body,
}

/// What happened in a node. Clients, publishes and deliveries are numbered from 0, the latter two for each client.
#[derive(Debug, Drop)]
pub enum Event {
    /// The folder was opened and held these messages.
    Opened {
        lines: Lines,
    },
    /// A message was added to each of these queues.
    Published {
        client: u32,
        number: u64,
        id: u128,
        queues: Queues,
        body: Body,
    },
    /// The queue's next message was handed out.
    Delivered {
        client: u32,
        delivery: u32,
        queue: u32,
        id: u128,
    },
    /// A get found nothing that waits.
    Empty {
        client: u32,
        queue: u32,
    },
    /// A get was refused, since 64 deliveries of the client are open.
    Busy {
        client: u32,
        queue: u32,
    },
    /// An open delivery was acknowledged.
    Acked {
        client: u32,
        delivery: u32,
    },
    /// An acknowledgement named no open delivery.
    Unknown {
        client: u32,
        delivery: u32,
    },
    /// The writer saw an acknowledgement before the client's request came.
    Dropped {
        client: u32,
        delivery: u32,
    },
    /// The client gave back all that it had open.
    Ended {
        client: u32,
    },
    /// A published message is safe in each of its queues.
    Confirmed {
        client: u32,
        number: u64,
        id: u128,
    },
    /// An acknowledged message is gone from the disk.
    Settled {
        queue: u32,
        id: u128,
    },
}

/// An event, and the disk's moment at which it was recorded.
#[derive(Debug, Drop)]
pub struct Entry {
    pub event: Event,
    pub stamp: u64,
}
