// Marks of queues.
ghost use Rattle.std.specs.Prelude.{◌≡◌, ◌≢◌, ◌<◌, ℕ, false, IfOk, MatchOption};
ghost use Rattle.cq_queues.specs.Marks.{marked, HasNone, IsLowest};

use std::alloc::{AllocError, Global};
use std::marker::Model;

/// How many queues a node has.
const QUEUES: usize = 256;

/// A mark for each of 256 queues. A contract sees the list of flags.
#[derive(Debug, Drop)]
pub struct Marks {
    flags: Vec<bool>,
    /// No queue below is marked.
    low: usize,
}

impl Model for Marks {
    ghost use Rattle.std.specs.Prelude.{List, Bool};
    ghost use Rattle.cq_queues.specs.Marks.{AreFlags};

    ghost Value = { List Bool };

    ghost view = { λ m. m.flags.items };

    ghost invariant = { λ m. AreFlags m.flags.items m.low };
}

impl Marks {
    /// No queue is marked.
    pub fn new(alloc: Global) -> Result<Marks, AllocError>
        ensures { IfOk result (λ marks. (q : ℕ) → marked marks q ≡ false) }
    {
        let mut flags = Vec::new(alloc);
        for _queue in 0..QUEUES {
            flags.push(false)?;
        }
        Ok(Marks { flags, low: QUEUES })
    }

    /// Marks a queue, or takes its mark away. It takes no memory.
    pub fn set(&mut self, queue: u32, on: bool)
        requires { queue < 256 }
        ensures at { marked self.new queue ≡ on }
        ensures others { (q : ℕ) → q ≢ queue → marked self.new q ≡ marked self.old q }
    {
        let at = queue as usize;
        self.flags[at] = on;
        if on && at < self.low {
            self.low = at;
        }
    }

    /// The lowest queue that is marked; `None` exactly where none is. It goes on from where it looked last, and not over
    /// all queues.
    pub fn lowest(&mut self) -> Option<u32>
        ensures same { self.new ≡ self.old }
        ensures lowest { MatchOption result (HasNone (marked self.old)) (IsLowest (marked self.old)) }
    {
        while self.low < QUEUES {
            if self.flags[self.low] {
                return Some(self.low as u32);
            }
            self.low += 1;
        }
        None
    }
}
