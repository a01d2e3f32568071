// The numbers that a node is opened with.
ghost use Rattle.std.specs.Prelude.{◌≡◌, ◌≤◌, ◌↔◌, IsSome, IfSome};

/// The numbers of a node: how many clients it has, how many entries a segment of an index, how long a body stays
/// small, how long a shared file grows, and which session this is.
#[derive(Clone, Copy, Debug, PartialEq, Eq)]
pub struct Config {
    clients: u32,
    segment: u32,
    threshold: u32,
    limit: u64,
    session: u32,

    ghost clients_in_range: { (1 ≤ clients) × (clients ≤ 64) },
    ghost segment_in_range: { (16 ≤ segment) × (segment ≤ 4096) },
    ghost threshold_in_range: { (1 ≤ threshold) × (threshold ≤ 65536) },
    ghost limit_in_range: { (4096 ≤ limit) × (limit ≤ 16777216) },
}

impl Config {
    ghost use Rattle.cq_inbox.specs.Config.{IsInRange, HasNumbers, clients_of, segment_of, threshold_of, limit_of, session_of};

    /// The numbers of a node. `None` exactly where one is out of its range: 1 to 64 clients, 16 to 4096 entries in a
    /// segment, a threshold of 1 to 65,536 bytes, a shared file of 4096 to 16,777,216 bytes.
    pub fn new(
        clients: u32,
        segment: u32,
        threshold: u32,
        limit: u64,
        session: u32,
    ) -> Option<Config>
        ensures in_range { IsSome result ↔ IsInRange clients segment threshold limit }
        ensures numbers { IfSome result (HasNumbers clients segment threshold limit session) }
    {
        let in_range = (1..=64).contains(&clients)
            && (16..=4096).contains(&segment)
            && (1..=65_536).contains(&threshold)
            && (4096..=16_777_216).contains(&limit);
        if !in_range {
            return None;
        }
        Some(Config {
            clients,
            segment,
            threshold,
            limit,
            session,
        })
    }

    /// How many clients the node has, from 1 to 64.
    pub fn clients(&self) -> u32
        ensures same { result ≡ clients_of self.now }
        ensures in_range { (1 ≤ result) × (result ≤ 64) }
    {
        self.clients
    }

    /// How many entries a segment of an index has, from 16 to 4096.
    pub fn segment(&self) -> u32
        ensures same { result ≡ segment_of self.now }
        ensures in_range { (16 ≤ result) × (result ≤ 4096) }
    {
        self.segment
    }

    /// A shorter body is small, in bytes, from 1 to 65,536.
    pub fn threshold(&self) -> u32
        ensures same { result ≡ threshold_of self.now }
        ensures in_range { (1 ≤ result) × (result ≤ 65536) }
    {
        self.threshold
    }

    /// How long the content of a shared file may grow, in bytes, from 4096 to 16,777,216.
    pub fn limit(&self) -> u64
        ensures same { result ≡ limit_of self.now }
        ensures in_range { (4096 ≤ result) × (result ≤ 16777216) }
    {
        self.limit
    }

    /// The number of the session, from 0.
    pub fn session(&self) -> u32
        ensures { result ≡ session_of self.now }
    {
        self.session
    }
}
