// What a message lacks.

/// A message, by the publish that it came from, and how many queues it lacks.
#[derive(Clone, Copy, Debug, PartialEq, Eq)]
pub struct Lack {
    pub client: u32,
    /// The number among the client's publishes.
    pub number: u64,
    pub queues: u32,
}

/// A publish whose message is safe in each of its queues.
#[derive(Clone, Copy, Debug, PartialEq, Eq)]
pub struct Sure {
    pub client: u32,
    /// The number among the client's publishes.
    pub number: u64,
}
