// The queues that a message goes to.
ghost use Rattle.std.specs.Prelude.{◌≡◌, ◌≤◌, ◌<◌, ◌++◌, ◌∷◌, [], true, OnOk, OnErr, IsErrOf, ◌↔◌};
ghost use Rattle.cq_bytes.specs.Numbers.{contains, AreQueues};

use std::alloc::{AllocError, Global};
use std::marker::Model;

/// Why a queue wasn't added to a list of queues.
#[derive(Clone, Copy, Debug, PartialEq, Eq)]
pub enum QueuesError {
    /// The number isn't below 256.
    Range,
    /// The queue is in the list.
    Repeated,
    /// Memory ran out.
    Memory,
}

/// Different numbers of queues, each below 256. A contract sees it as their list.
#[derive(Clone, Debug, Drop)]
pub struct Queues {
    numbers: Vec<u32>,
}

impl Model for Queues {
    ghost use Rattle.std.specs.Prelude.{List, ℕ};
    ghost use Rattle.cq_bytes.specs.Numbers.{AreQueues};

    ghost Value = { List ℕ };

    ghost view = { λ q. q.numbers.items };

    ghost invariant = { λ q. AreQueues q.numbers.items };
}

impl Queues {
    /// No queue.
    pub fn new(alloc: Global) -> Queues
        ensures { result ≡ [] }
    {
        Queues {
            numbers: Vec::new(alloc),
        }
    }

    /// The numbers, in the order in which they were added.
    pub fn numbers(&self) -> &[u32]
        ensures same { result.now ≡ self.now }
        ensures queues { AreQueues self.now }
    {
        &self.numbers
    }

    /// Adds a queue at the end. `Range` exactly where its number isn't below 256, else `Repeated` exactly where it
    /// is in the list, else `Memory` where memory runs out; the list is unchanged then.
    pub fn push(&mut self, queue: u32) -> Result<(), QueuesError>
        ensures ok { OnOk result (self.new ≡ self.old ++ queue ∷ []) }
        ensures err { OnErr result (self.new ≡ self.old) }
        ensures range { IsErrOf result QueuesError.Range ↔ (256 ≤ queue) }
        ensures repeated { IsErrOf result QueuesError.Repeated ↔ ((queue < 256) × (contains self.old queue ≡ true)) }
    {
        if queue >= 256 {
            return Err(QueuesError::Range);
        }
        if self.numbers.contains(&queue) {
            return Err(QueuesError::Repeated);
        }
        match self.numbers.push(queue) {
            Ok(()) => Ok(()),
            Err(_) => Err(QueuesError::Memory),
        }
    }
}
