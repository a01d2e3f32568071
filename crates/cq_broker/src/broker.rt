// The clients and queues of a node.
ghost use Rattle.std.specs.Prelude.{◌≡◌, ◌<◌, ℕ, [], length, IfOk, OnOk, Option};
ghost use Rattle.cq_disk.specs.declared.name.Name.{Name};
ghost use Rattle.cq_disk.specs.File.{File};
ghost use Rattle.cq_journal.specs.declared.event.Event.TheVariants as event;
ghost use Rattle.cq_journal.specs.Legal.{Legal, delivered};
ghost use Rattle.cq_journal.specs.Lawful.{Legal-prop};
ghost use Rattle.cq_history.specs.History.{account_at, room_at};
ghost use Rattle.cq_history.specs.Steps.{SaysTheSame, noted};
ghost use Rattle.cq_client.specs.Client.{no_account};
ghost use Rattle.cq_queue.specs.Values.{IsMost, empty_queue};
ghost use Rattle.cq_queues.specs.Queues.{items_at};
ghost use Rattle.cq_broker.specs.InMemory.{IsInMemory};

mod answers;
mod publishing;

use crate::Next;
use cq_history::History;
use cq_journal::{Journal, Lines};
use cq_queues::NodeQueues;
use std::alloc::{AllocError, Global};

/// The clients and queues of a node, and all that happened there.
#[derive(Drop)]
pub struct Broker {
    alloc: Global,
    history: History,
    queues: NodeQueues,

    // The journal is legal; each queue's messages are in step with it, and each message lacks the queues that have it undecided.
    ghost legal: { Legal history.entries } by { Legal-prop history.entries },
    ghost in_memory: { ∥ IsInMemory (items_at queues) history.entries history.lacks ∥₁ },
}

impl Broker {
    ghost use Rattle.cq_queues.specs.Changes.{AreOnDisk, HasNoQueueFiles};
    ghost use Rattle.cq_broker.specs.Broker.{Finds, entries_of, history_of, queue_at};

    /// So many clients, and queues without messages and files, whose segments get this many entries at most, from 16 to
    /// 4096. The opening, of a folder that held nothing, is the journal's one entry, with this stamp.
    pub fn vacant(alloc: Global, clients: u32, most: u32, stamp: u64) -> Result<Broker, AllocError>
        requires most { IsMost most }
        ensures opened { IfOk result (λ broker. entries_of broker ≡ noted (event.Opened []) stamp []) }
        ensures clients { IfOk result (λ broker. length (history_of broker).clients ≡ clients) }
        ensures accounts { IfOk result (λ broker. (c : ℕ) → account_at (history_of broker).clients c ≡ no_account) }
        ensures empty { IfOk result (λ broker. (q : ℕ) → q < 256 → queue_at broker q ≡ empty_queue q most) }
        ensures files { IfOk result (λ broker. (files : Name → Option File) → HasNoQueueFiles files
            → AreOnDisk (queue_at broker) files) }
    {
        let lines = Lines::new(alloc);
        let taken = Vec::new(alloc);
        let history = History::new(alloc, clients, lines, taken, stamp)?;
        let queues = NodeQueues::vacant(alloc, most)?;
        Ok(Broker {
            alloc,
            history,
            queues,
        })
    }

    /// Makes room for one more entry, and for one more reply to a client. Where memory runs out nothing that is told has
    /// changed.
    pub fn reserve(&mut self, client: u32) -> Result<(), AllocError>
        requires client { client < length (history_of self.old).clients }
        ensures same { SaysTheSame (history_of self.old) (history_of self.new) }
        ensures queues { queue_at self.new ≡ queue_at self.old }
        ensures room { OnOk result (0 < (history_of self.new).room) }
        ensures reply_room { OnOk result (0 < room_at (history_of self.new).clients client) }
    {
        self.history.reserve(client)
    }

    /// What happened so far.
    pub fn journal(&self) -> &Journal
        ensures { result.now.entries ≡ entries_of self.now }
    {
        self.history.journal()
    }

    /// How many deliveries a client had.
    pub fn delivered(&self, client: u32) -> u32
        requires client { client < length (history_of self.now).clients }
        ensures account { result ≡ (account_at (history_of self.now).clients client).delivered }
        ensures journal { result ≡ delivered (entries_of self.now) client }
    {
        self.history.delivered(client)
    }

    /// What the next get of a client finds in a queue.
    pub fn next(&self, client: u32, queue: u32) -> Next
        requires client { client < length (history_of self.now).clients }
        requires queue { queue < 256 }
        ensures { Finds client queue result self.now }
    {
        if self.history.is_full(client) {
            return Next::Busy;
        }
        match self.queues.first_waiting(queue) {
            Some(first) => Next::Waiting(first),
            None => Next::Empty,
        }
    }
}
