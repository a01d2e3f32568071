// The steps of a node's queues on a disk. What a step of a queue promises is promised of that queue; the others stay.
ghost use Rattle.std.specs.Prelude.{◌≡◌, ◌<◌, ◌+◌, ℕ, length, slice_get, IfOk, IfErr, OnOk, IsErr, IsErrOf};
ghost use Rattle.cq_disk.specs.Run.{Ran, OnlyReads};
ghost use Rattle.cq_items.specs.Items.{settling_ids, waiting_items};
ghost use Rattle.cq_queue.specs.declared.error.QueueError.TheVariants.{Fault as queue_fault};
ghost use Rattle.cq_queue.specs.Lists.{AreBelow};
ghost use Rattle.cq_queue.specs.QueueCalls.{CanPass, CanRead, CommitsOnly, HasBody, HasPassed, HasRemoved, HasSettled, IsBodyInMemory, KeepsAll, KeptAreHeld, Leaves, SettledAreLost, SettlesOnly, calls_to_commit, calls_to_read, calls_to_remove, calls_to_settle};
ghost use Rattle.cq_queue.specs.Values.{IsRunning};
ghost use Rattle.cq_queues.specs.Changes.{AreOnDisk, OthersStay};

use super::note;
use crate::NodeQueues;
use cq_disk::{Disk, Fault};
use cq_items::Passed;
use cq_queue::QueueError;

impl NodeQueues {
    ghost use Rattle.cq_queues.specs.Queues.{items_at, queue_at};

    /// Fills a buffer with the body of the first message that waits in a queue, a small one of this id, whose length is the
    /// buffer's: from memory, or by one read where it is committed. It takes no memory.
    pub fn read<D: Disk>(
        &mut self,
        disk: &mut D,
        queue: u32,
        id: u128,
        into: &mut [u8],
    ) -> Result<(), QueueError>
        requires queue { queue < 256 }
        requires can { CanRead (queue_at self.old queue) id (length into.old) }
        requires at { D.tells → AreOnDisk (queue_at self.old) (D.files disk.old) }
        ensures same { OnOk result (queue_at self.new queue ≡ queue_at self.old queue) }
        ensures others { OthersStay queue (queue_at self.old) (queue_at self.new) }
        ensures memory { OnOk result (IsBodyInMemory (slice_get (waiting_items (items_at self.old queue)) 0) into.new) }
        ensures body { OnOk result (D.tells → HasBody D.Disk (queue_at self.old queue) disk.old id into.new) }
        ensures err { IfErr result (λ error. error ≡ queue_fault) }
        ensures at { D.tells → AreOnDisk (queue_at self.new) (D.files disk.new) }
        ensures reads { D.tells → OnlyReads D.Disk disk.old disk.new }
        ensures ran { Ran D.Disk disk.old disk.new (IsErr result) }
        ensures calls { OnOk result (D.moment disk.new
            ≡ D.moment disk.old + calls_to_read (slice_get (waiting_items (items_at self.old queue)) 0)) }
    {
        let done = self.cores[queue as usize].read(disk, id, into);
        note(
            &self.cores,
            &mut self.undecided,
            &mut self.settling,
            &mut self.finished,
            queue,
        );
        done
    }

    /// Passes undecided entries of a queue from the front: it skips these and those that nobody needs, and keeps the others,
    /// as far as the queue's last segment has room, or a new one. What is passed is told, in order.
    ///
    /// None of those to be skipped waits. All memory is taken before the first call of the disk.
    pub fn commit<D: Disk>(
        &mut self,
        disk: &mut D,
        queue: u32,
        skip: &[u128],
    ) -> Result<Vec<Passed>, QueueError>
        requires queue { queue < 256 }
        requires can { CanPass (queue_at self.old queue) skip.now }
        requires at { D.tells → AreOnDisk (queue_at self.old) (D.files disk.old) }
        ensures ok { IfOk result (λ passed.
            HasPassed skip.now (queue_at self.old queue) passed.items (queue_at self.new queue)) }
        ensures numbers { OnOk result ((n : ℕ) → AreBelow n (queue_at self.old queue).segments
            → AreBelow (n + 1) (queue_at self.new queue).segments) }
        ensures err { IfErr result (Leaves (queue_at self.old queue) (queue_at self.new queue) (disk.new ≡ disk.old)) }
        ensures others { OthersStay queue (queue_at self.old) (queue_at self.new) }
        ensures at { D.tells → AreOnDisk (queue_at self.new) (D.files disk.new) }
        ensures held { OnOk result (D.tells → KeptAreHeld D.Disk skip.now (queue_at self.old queue) disk.old disk.new) }
        ensures touches { D.tells → CommitsOnly D.Disk skip.now (queue_at self.old queue) disk.old disk.new }
        ensures ran { Ran D.Disk disk.old disk.new (IsErrOf result queue_fault) }
        ensures calls { OnOk result
            (D.moment disk.new ≡ D.moment disk.old + calls_to_commit skip.now (queue_at self.old queue)) }
    {
        let passed = self.cores[queue as usize].commit(disk, skip);
        note(
            &self.cores,
            &mut self.undecided,
            &mut self.settling,
            &mut self.finished,
            queue,
        );
        passed
    }

    /// The entries of committed and acknowledged messages in the lowest segment of a queue that has any are marked as gone,
    /// and synced; the messages leave the queue, and their ids are told. There is none, and no call of the disk, exactly
    /// where nothing is committed and acknowledged. All memory is taken before the first call of the disk.
    pub fn settle<D: Disk>(&mut self, disk: &mut D, queue: u32) -> Result<Vec<u128>, QueueError>
        requires queue { queue < 256 }
        requires running { IsRunning (queue_at self.old queue) }
        requires at { D.tells → AreOnDisk (queue_at self.old) (D.files disk.old) }
        ensures ok { IfOk result (λ ids. HasSettled (queue_at self.old queue) ids.items (queue_at self.new queue)) }
        ensures err { IfErr result (Leaves (queue_at self.old queue) (queue_at self.new queue) (disk.new ≡ disk.old)) }
        ensures others { OthersStay queue (queue_at self.old) (queue_at self.new) }
        ensures at { D.tells → AreOnDisk (queue_at self.new) (D.files disk.new) }
        ensures lost { OnOk result (D.tells → SettledAreLost D.Disk (queue_at self.old queue) disk.old disk.new) }
        ensures touches { D.tells → SettlesOnly D.Disk (queue_at self.old queue) disk.old disk.new }
        ensures ran { Ran D.Disk disk.old disk.new (IsErrOf result queue_fault) }
        ensures calls { OnOk result (D.moment disk.new
            ≡ D.moment disk.old + calls_to_settle (settling_ids (items_at self.old queue))) }
    {
        let ids = self.cores[queue as usize].settle(disk);
        note(
            &self.cores,
            &mut self.undecided,
            &mut self.settling,
            &mut self.finished,
            queue,
        );
        ids
    }

    /// Removes the files of the lowest finished segment of a queue, its index and then its small store. False, without a
    /// call of the disk, exactly where no segment is finished. It takes no memory.
    pub fn remove_segment<D: Disk>(&mut self, disk: &mut D, queue: u32) -> Result<bool, Fault>
        requires queue { queue < 256 }
        requires running { IsRunning (queue_at self.old queue) }
        requires at { D.tells → AreOnDisk (queue_at self.old) (D.files disk.old) }
        ensures ok { IfOk result (λ removed. HasRemoved (queue_at self.old queue) removed (queue_at self.new queue)) }
        ensures others { OthersStay queue (queue_at self.old) (queue_at self.new) }
        ensures at { D.tells → AreOnDisk (queue_at self.new) (D.files disk.new) }
        ensures touches { D.tells → KeepsAll D.Disk (queue_at self.old queue) disk.old disk.new }
        ensures ran { Ran D.Disk disk.old disk.new (IsErr result) }
        ensures calls { OnOk result
            (D.moment disk.new ≡ D.moment disk.old + calls_to_remove (queue_at self.old queue)) }
    {
        let removed = self.cores[queue as usize].remove_segment(disk);
        note(
            &self.cores,
            &mut self.undecided,
            &mut self.settling,
            &mut self.finished,
            queue,
        );
        removed
    }
}
