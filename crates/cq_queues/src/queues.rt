// The queues of a node.
ghost use Rattle.std.specs.Prelude.{◌≡◌, ◌≢◌, ◌<◌, ℕ, length, map, slice_get, IfOk, IsSome, MatchOption, Option, Some};
ghost use Rattle.cq_disk.specs.declared.name.Name.{Name};
ghost use Rattle.cq_disk.specs.File.{File};
ghost use Rattle.cq_items.specs.Items.{first_of, holder_of, is_out_to, settled_items, undecided_items, waiting_items};
ghost use Rattle.cq_queue.specs.Values.{IsMost, empty_queue};
ghost use Rattle.cq_queues.specs.Marks.{HasNone, IsLowest};
ghost use Rattle.cq_queues.specs.Values.{AreMarked, AreMarked-prop, AreOwn, AreOwn-prop, IsMarked, value_in};

mod files;
mod memory;

use crate::Marks;
use cq_items::{First, Holder};
use cq_queue::QueueCore;
use std::alloc::{AllocError, Global};

/// How many queues a node has.
const QUEUES: u32 = 256;

/// The 256 queues of a node, each with its files. An unused one takes no memory but for its own fields. Marks tell which
/// of them have undecided messages, messages to be settled, and a finished segment, so that nothing looks at them all.
///
/// After a fault the value is given up, and the files are opened again.
#[derive(Drop)]
pub struct NodeQueues {
    most: u32,
    cores: Vec<QueueCore>,
    /// The queues that have undecided messages.
    undecided: Marks,
    /// The queues that have messages that are committed and acknowledged.
    settling: Marks,
    /// The queues that have a finished segment.
    finished: Marks,

    ghost count: { length cores.items ≡ 256 },
    ghost own: { AreOwn most (value_in cores.items) } by { AreOwn-prop most cores.items },
    ghost are_marked: { AreMarked (value_in cores.items) undecided settling finished } by { AreMarked-prop cores.items undecided settling finished },
}

/// Marks a queue where it has undecided messages, messages to be settled, and a finished segment.
fn note(
    cores: &[QueueCore],
    undecided: &mut Marks,
    settling: &mut Marks,
    finished: &mut Marks,
    queue: u32,
)
    requires count { length cores.now ≡ 256 }
    requires queue { queue < 256 }
    ensures { (q : ℕ) → q < 256 → (q ≢ queue → IsMarked (value_in cores.now q) undecided.old settling.old finished.old q)
        → IsMarked (value_in cores.now q) undecided.new settling.new finished.new q }
{
    let core = &cores[queue as usize];
    let some = core.undecided(0).is_some();
    let gone = core.is_settling();
    let over = core.has_finished();
    undecided.set(queue, some);
    settling.set(queue, gone);
    finished.set(queue, over);
}

impl NodeQueues {
    ghost use Rattle.cq_queues.specs.Changes.{AreOnDisk, HasNoQueueFiles};
    ghost use Rattle.cq_queues.specs.Queues.{items_at, queue_at};
    ghost use Rattle.cq_queues.specs.Values.{has_finished, has_settling, has_undecided};

    /// Queues without messages and files, whose segments get this many entries at most, from 16 to 4096. It makes no call
    /// of a disk.
    pub fn vacant(alloc: Global, length: u32) -> Result<NodeQueues, AllocError>
        requires length { IsMost length }
        ensures empty { IfOk result (λ queues. (q : ℕ) → q < 256 → queue_at queues q ≡ empty_queue q length) }
        ensures files { IfOk result (λ queues. (files : Name → Option File) → HasNoQueueFiles files
            → AreOnDisk (queue_at queues) files) }
    {
        let mut cores = Vec::new(alloc);
        for queue in 0..QUEUES {
            cores.push(QueueCore::vacant(alloc, queue, length))?;
        }
        NodeQueues::of(alloc, cores, length)
    }

    /// These 256 queues, in the order of their numbers, whose segments all get this many entries at most.
    pub fn of(alloc: Global, cores: Vec<QueueCore>, most: u32) -> Result<NodeQueues, AllocError>
        requires count { length cores.items ≡ 256 }
        requires own { AreOwn most (value_in cores.items) }
        ensures { IfOk result (λ queues. (q : ℕ) → queue_at queues q ≡ value_in cores.items q) }
    {
        let mut undecided = Marks::new(alloc)?;
        let mut settling = Marks::new(alloc)?;
        let mut finished = Marks::new(alloc)?;
        for queue in 0..QUEUES {
            note(&cores, &mut undecided, &mut settling, &mut finished, queue);
        }
        Ok(NodeQueues {
            most,
            cores,
            undecided,
            settling,
            finished,
        })
    }

    /// What a queue hands out next. `None` exactly where nothing waits there.
    pub fn first_waiting(&self, queue: u32) -> Option<First>
        requires { queue < 256 }
        ensures { result ≡ slice_get (map first_of (waiting_items (items_at self.now queue))) 0 }
    {
        self.cores[queue as usize].first_waiting()
    }

    /// How many messages of a queue wait.
    pub fn waiting(&self, queue: u32) -> u64
        requires { queue < 256 }
        ensures { result ≡ length (waiting_items (items_at self.now queue)) }
    {
        self.cores[queue as usize].waiting()
    }

    /// Whether a message of a queue is out to this client, under this number among its deliveries.
    pub fn is_out(&self, queue: u32, client: u32, delivery: u32) -> bool
        requires { queue < 256 }
        ensures { result ≡ is_out_to client delivery (items_at self.now queue) }
    {
        self.cores[queue as usize].is_out(client, delivery)
    }

    /// How many entries of a queue are undecided. A commit passes so many at most.
    pub fn undecided_count(&self, queue: u32) -> usize
        requires { queue < 256 }
        ensures { result ≡ length (undecided_items (items_at self.now queue)) }
    {
        self.cores[queue as usize].undecided_count()
    }

    /// How many messages of a queue are committed and acknowledged. A settling settles so many at most.
    pub fn settling_count(&self, queue: u32) -> usize
        requires { queue < 256 }
        ensures { result ≡ length (settled_items (items_at self.now queue)) }
    {
        self.cores[queue as usize].settling_count()
    }

    /// The id of the undecided entry of a queue at this place from the front. `None` exactly past the last.
    pub fn undecided(&self, queue: u32, at: usize) -> Option<u128>
        requires { queue < 256 }
        ensures { result ≡ slice_get (map (λ i. i.id) (undecided_items (items_at self.now queue))) at }
    {
        self.cores[queue as usize].undecided(at)
    }

    /// Who has the undecided message of a queue with this id.
    pub fn holder(&self, queue: u32, id: u128) -> Holder
        requires queue { queue < 256 }
        requires some { IsSome (holder_of id (undecided_items (items_at self.now queue))) }
        ensures { Some result ≡ holder_of id (undecided_items (items_at self.now queue)) }
    {
        self.cores[queue as usize].holder(id)
    }

    /// The lowest queue that has undecided messages. `None` exactly where none has.
    pub fn first_undecided(&mut self) -> Option<u32>
        ensures same { queue_at self.new ≡ queue_at self.old }
        ensures lowest { MatchOption result (HasNone (λ q. has_undecided (queue_at self.old q)))
            (IsLowest (λ q. has_undecided (queue_at self.old q))) }
    {
        self.undecided.lowest()
    }

    /// The lowest queue that has messages that are committed and acknowledged. `None` exactly where none has.
    pub fn first_settling(&mut self) -> Option<u32>
        ensures same { queue_at self.new ≡ queue_at self.old }
        ensures lowest { MatchOption result (HasNone (λ q. has_settling (queue_at self.old q)))
            (IsLowest (λ q. has_settling (queue_at self.old q))) }
    {
        self.settling.lowest()
    }

    /// The lowest queue that has a finished segment. `None` exactly where none has.
    pub fn first_finished(&mut self) -> Option<u32>
        ensures same { queue_at self.new ≡ queue_at self.old }
        ensures lowest { MatchOption result (HasNone (λ q. has_finished (queue_at self.old q)))
            (IsLowest (λ q. has_finished (queue_at self.old q))) }
    {
        self.finished.lowest()
    }
}
