// The messages that stood in the queues when a folder was opened.
ghost use Rattle.std.specs.Prelude.{◌≡◌, ◌≤◌, ◌++◌, ◌∷◌, [], length, OnOk, OnErr, MatchOption, Some, slice_get};

use cq_bytes::Body;
use std::alloc::{AllocError, Global};
use std::marker::Model;

/// A message of a queue, as the folder held it.
#[derive(Debug, Drop)]
pub struct Line {
    pub queue: u32,
    pub id: u128,
    pub body: Body,
}

/// The messages of all queues, each queue's in order. A contract sees their list.
#[derive(Debug, Drop)]
pub struct Lines {
    items: Vec<Line>,
}

impl Model for Lines {
    ghost use Rattle.std.specs.Prelude.{List};
    ghost use Rattle.cq_journal.specs.declared.lines.Line.{Line};

    ghost Value = { List Line };

    ghost view = { λ l. l.items.items };
}

impl Lines {
    /// No message.
    pub fn new(alloc: Global) -> Lines
        ensures { result ≡ [] }
    {
        Lines {
            items: Vec::new(alloc),
        }
    }

    /// Adds a message at the end. Where memory runs out nothing has changed.
    pub fn push(&mut self, queue: u32, id: u128, body: Body) -> Result<(), AllocError>
        ensures ok { OnOk result (self.new ≡ self.old ++ (record { queue = queue; id = id; body = body }) ∷ []) }
        ensures err { OnErr result (self.new ≡ self.old) }
    {
        self.items.push(Line { queue, id, body })?;
        Ok(())
    }

    /// The queue, id and body of the message at a place, from 0. `None` exactly past the last.
    pub fn line(&self, index: usize) -> Option<(u32, u128, &[u8])>
        ensures { MatchOption result (length self.now ≤ index)
            (λ l. slice_get self.now index ≡ Some (record { queue = l.0; id = l.1; body = l.2.now })) }
    {
        let line = self.items.get(index)?;
        Some((line.queue, line.id, line.body.bytes()))
    }
}
