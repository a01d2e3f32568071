// What the next get of a client finds.
use cq_items::First;

/// What the next get of a client finds in a queue.
#[derive(Clone, Copy, Debug, PartialEq, Eq)]
pub enum Next {
    /// The client has 64 deliveries open.
    Busy,
    /// Nothing waits.
    Empty,
    /// The first message that waits.
    Waiting(First),
}
