// The steps of a node's queues in memory.
ghost use Rattle.std.specs.Prelude.{◌≡◌, ◌<◌, ◌≤◌, ◌++◌, ◌∷◌, [], ℕ, List, false, length, OnOk};
ghost use Rattle.std.specs.List.{AllByRecursion};
ghost use Rattle.cq_bytes.specs.Numbers.{AreQueues};
ghost use Rattle.cq_items.specs.Items.{ack, hand_out, is_out_to, waiting_items};
ghost use Rattle.cq_queues.specs.Changes.{AreBelow, AreCopies, AreReserved, ChangesRoom, HasGivenBack, HasJoined, OthersStay, StayOnDisk};

use super::note;
use crate::NodeQueues;
use cq_bytes::Body;
use std::alloc::AllocError;

/// Takes the last copy out.
fn last_of(copies: &mut Vec<Body>) -> Body
    requires { 0 < length copies.old.items }
    ensures { copies.old.items ≡ copies.new.items ++ result ∷ [] }
{
    match copies.pop() {
        Some(copy) => copy,
        None => unreachable!(),
    }
}

impl NodeQueues {
    ghost use Rattle.cq_queues.specs.Queues.{items_at, queue_at};

    /// Takes the memory for one more message in each of these queues. Where there is none no message has changed.
    pub fn reserve(&mut self, queues: &[u32]) -> Result<(), AllocError>
        requires { AreBelow queues.now }
        ensures room { ChangesRoom (queue_at self.old) (queue_at self.new) }
        ensures ok { OnOk result (AreReserved (queue_at self.new) queues.now) }
        ensures files { StayOnDisk (queue_at self.old) (queue_at self.new) }
    {
        for queue in queues {
            self.reserve_one(*queue)?;
        }
        Ok(())
    }

    /// Takes the memory for one more message in this queue.
    fn reserve_one(&mut self, queue: u32) -> Result<(), AllocError>
        requires { queue < 256 }
        ensures room { ChangesRoom (queue_at self.old) (queue_at self.new) }
        ensures ok { OnOk result (AreReserved (queue_at self.new) (queue ∷ [])) }
        ensures others { OthersStay queue (queue_at self.old) (queue_at self.new) }
        ensures more { (q : ℕ) → AreReserved (queue_at self.old) (q ∷ []) → AreReserved (queue_at self.new) (q ∷ []) }
    {
        let reserved = self.cores[queue as usize].reserve();
        note(
            &self.cores,
            &mut self.undecided,
            &mut self.settling,
            &mut self.finished,
            queue,
        );
        reserved
    }

    /// Adds a small message of this length at the end of each of these queues, for each of which there is a copy of its
    /// body. It takes no memory.
    ///
    /// Room was reserved in each since its last publish; the id isn't 0; `len` is at most 1,048,576.
    pub fn publish(&mut self, queues: &[u32], id: u128, mut copies: Vec<Body>, len: u32)
        requires queues { AreQueues queues.now }
        requires reserved { AreReserved (queue_at self.old) queues.now }
        requires named { 0 < id }
        requires short { len ≤ 1048576 }
        requires copies { AreCopies len (length queues.now) copies.items }
        ensures joined { (body : List ℕ) → AllByRecursion (λ copy. copy ≡ body) copies.items
            → HasJoined id body len queues.now (queue_at self.old) (queue_at self.new) }
        ensures files { StayOnDisk (queue_at self.old) (queue_at self.new) }
    {
        for queue in queues {
            let copy = last_of(&mut copies);
            self.publish_one(*queue, id, copy, len);
        }
    }

    /// Adds a small message at the end of a queue.
    fn publish_one(&mut self, queue: u32, id: u128, copy: Body, len: u32)
        requires queue { queue < 256 }
        requires reserved { AreReserved (queue_at self.old) (queue ∷ []) }
        requires named { 0 < id }
        requires short { len ≤ 1048576 }
        requires long { length copy ≡ len }
        ensures joined { HasJoined id copy len (queue ∷ []) (queue_at self.old) (queue_at self.new) }
        ensures files { StayOnDisk (queue_at self.old) (queue_at self.new) }
    {
        self.cores[queue as usize].publish(id, Some(copy), len);
        note(
            &self.cores,
            &mut self.undecided,
            &mut self.settling,
            &mut self.finished,
            queue,
        );
    }

    /// The queue's first message that waits is out to this client, under this number among its deliveries. It takes no memory.
    pub fn deliver(&mut self, queue: u32, client: u32, delivery: u32)
        requires queue { queue < 256 }
        requires some { 0 < length (waiting_items (items_at self.old queue)) }
        requires fresh { is_out_to client delivery (items_at self.old queue) ≡ false }
        ensures queue { queue_at self.new queue ≡ record (queue_at self.old queue)
            { items = hand_out client delivery (items_at self.old queue) } }
        ensures others { OthersStay queue (queue_at self.old) (queue_at self.new) }
        ensures files { StayOnDisk (queue_at self.old) (queue_at self.new) }
    {
        self.cores[queue as usize].deliver(client, delivery);
        note(
            &self.cores,
            &mut self.undecided,
            &mut self.settling,
            &mut self.finished,
            queue,
        );
    }

    /// The message of this delivery of a queue is acknowledged. Nothing happens where the delivery isn't out. It takes no
    /// memory.
    pub fn acked(&mut self, queue: u32, client: u32, delivery: u32)
        requires { queue < 256 }
        ensures queue { queue_at self.new queue ≡ record (queue_at self.old queue)
            { items = ack client delivery (items_at self.old queue) } }
        ensures others { OthersStay queue (queue_at self.old) (queue_at self.new) }
        ensures files { StayOnDisk (queue_at self.old) (queue_at self.new) }
    {
        self.cores[queue as usize].acked(client, delivery);
        note(
            &self.cores,
            &mut self.undecided,
            &mut self.settling,
            &mut self.finished,
            queue,
        );
    }

    /// What is out to a client goes back to its old place in each of these queues. It takes no memory.
    pub fn give_back(&mut self, client: u32, queues: &[u32])
        requires { AreBelow queues.now }
        ensures back { HasGivenBack client queues.now (queue_at self.old) (queue_at self.new) }
        ensures files { StayOnDisk (queue_at self.old) (queue_at self.new) }
    {
        for queue in queues {
            self.give_back_one(client, *queue);
        }
    }

    /// What is out to a client goes back in this queue.
    fn give_back_one(&mut self, client: u32, queue: u32)
        requires { queue < 256 }
        ensures back { HasGivenBack client (queue ∷ []) (queue_at self.old) (queue_at self.new) }
        ensures files { StayOnDisk (queue_at self.old) (queue_at self.new) }
    {
        self.cores[queue as usize].give_back(client);
        note(
            &self.cores,
            &mut self.undecided,
            &mut self.settling,
            &mut self.finished,
            queue,
        );
    }
}
