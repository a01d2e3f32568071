// The slow queues.
ghost use Rattle.std.specs.Prelude.{◌≡◌, ◌↔◌, true, [], ◌∷◌, if◌then◌else◌, map, IfOk, OnErr};
ghost use Rattle.cq_journal.specs.History.{waiting};
ghost use Rattle.cq_journal.specs.Legal.{Allowed, StartsWithOpened, Legal};

use crate::copy::copy_event;
use crate::queue::waiting;
use crate::table::may_follow;
use cq_journal::{Entry, Event, Journal};
use std::alloc::{AllocError, Global};
use std::marker::Model;

/// Queues that are read off their whole history at each call. They are slow on purpose, and for tests. A contract sees
/// the history, the newest entry first, whose stamps are 0.
#[derive(Drop)]
pub struct Plain {
    alloc: Global,
    journal: Journal,
}

impl Model for Plain {
    ghost use Rattle.std.specs.Prelude.{◌≡◌, List};
    ghost use Rattle.cq_journal.specs.declared.event.Entry.{Entry};
    ghost use Rattle.cq_journal.specs.Legal.{Legal, newest};

    ghost Value = { List Entry };

    ghost view = { λ p. p.journal.entries };

    ghost invariant = { λ p. Legal p.journal.entries × (newest p.journal.entries ≡ 0) };
}

impl Plain {
    /// An empty history.
    pub fn new(alloc: Global) -> Plain
        ensures { result ≡ [] }
    {
        Plain {
            alloc,
            journal: Journal::new(alloc),
        }
    }

    /// Adds the event where it may follow the history, and says whether it may. Else the history is as before, and where
    /// memory runs out too. The history is legal after each call.
    pub fn apply(&mut self, event: &Event) -> Result<bool, AllocError>
        ensures exact { IfOk result
            (λ allowed. (allowed ≡ true) ↔ (Allowed self.old event.now × StartsWithOpened self.old event.now)) }
        ensures ok { IfOk result
            (λ allowed. self.new ≡ (if allowed then (record { event = event.now; stamp = 0 }) ∷ self.old else self.old)) }
        ensures err { OnErr result (self.new ≡ self.old) }
        ensures legal { Legal self.new }
    {
        if !may_follow(self.alloc, self.journal.entries(), event)? {
            return Ok(false);
        }
        let event = copy_event(self.alloc, event)?;
        self.journal.reserve(1)?;
        self.journal.push(Entry { event, stamp: 0 });
        Ok(true)
    }

    /// The ids of the messages that wait in the queue, in order.
    pub fn waiting(&self, queue: u32) -> Result<Vec<u128>, AllocError>
        ensures { IfOk result (λ ids. ids.items ≡ map (λ m. m.id) (waiting self.now queue)) }
    {
        waiting(self.alloc, self.journal.entries(), queue)
    }
}
