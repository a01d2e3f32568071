// An open delivery.

/// A delivery of a client that is open: it was neither acknowledged nor given back.
#[derive(Clone, Copy, Debug, PartialEq, Eq)]
pub struct OpenDelivery {
    /// Its number among the client's deliveries.
    pub delivery: u32,
    /// The queue that it came from, below 256.
    pub queue: u32,
}
