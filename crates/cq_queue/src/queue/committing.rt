// Undecided entries that are passed, and those of them that join the queue's files.
ghost use Rattle.std.specs.Prelude.{◌≡◌, ◌+◌, ℕ, IfOk, IfErr, OnOk, IsErrOf};
ghost use Rattle.cq_disk.specs.Run.{Ran};
ghost use Rattle.cq_queue.specs.declared.error.QueueError.TheVariants.{Fault as queue_fault};
ghost use Rattle.cq_queue.specs.Lists.{AreBelow};

use super::planning::{Plan, pass_all, plan_of};
use crate::{QueueCore, QueueError};
use cq_disk::Disk;
use cq_items::Passed;
use std::alloc::AllocError;

impl QueueCore {
    ghost use Rattle.cq_queue.specs.Values.{IsOnDisk, IsRunning, IsSameNumber, value_of};
    ghost use Rattle.cq_queue.specs.Planning.{IsPlanned};
    ghost use Rattle.cq_queue.specs.QueueCalls.{CanPass, CommitsOnly, HasPassed, KeptAreHeld, Leaves, calls_to_commit};

    /// Passes undecided entries from the front: it skips these and those that nobody needs, and keeps the others, as far as
    /// the queue's last segment has room, or a new one. The records of the small ones and then the entries of all join it,
    /// each by one gated append. What is passed is told, in order.
    ///
    /// None of those to be skipped waits. All memory is taken before the first call of the disk.
    pub fn commit<D: Disk>(
        &mut self,
        disk: &mut D,
        skip: &[u128],
    ) -> Result<Vec<Passed>, QueueError>
        requires can { CanPass (value_of self.old) skip.now }
        requires at { D.tells → IsOnDisk (value_of self.old) (D.files disk.old) }
        ensures ok { IfOk result (λ passed. HasPassed skip.now (value_of self.old) passed.items (value_of self.new)) }
        ensures numbers { OnOk result ((n : ℕ) → AreBelow n (value_of self.old).segments
            → AreBelow (n + 1) (value_of self.new).segments) }
        ensures err { IfErr result (Leaves (value_of self.old) (value_of self.new) (disk.new ≡ disk.old)) }
        ensures own { IsSameNumber (value_of self.old) (value_of self.new) }
        ensures at { D.tells → IsRunning (value_of self.new) → IsOnDisk (value_of self.new) (D.files disk.new) }
        ensures held { OnOk result (D.tells → KeptAreHeld D.Disk skip.now (value_of self.old) disk.old disk.new) }
        ensures touches { D.tells → CommitsOnly D.Disk skip.now (value_of self.old) disk.old disk.new }
        ensures ran { Ran D.Disk disk.old disk.new (IsErrOf result queue_fault) }
        ensures calls { OnOk result
            (D.moment disk.new ≡ D.moment disk.old + calls_to_commit skip.now (value_of self.old)) }
    {
        let plan = self.plan(skip)?;
        if plan.entries.is_empty() {
            pass_all(&mut self.items, &plan, 0, 0);
            return Ok(plan.passed);
        }
        let alloc = *plan.passed.allocator();
        let segment = self.segments.take(alloc, plan.entries.len())?;
        let number = segment.number();
        let count = segment.count();
        self.halted = true;
        self.segments
            .add(disk, segment, &plan.records, &plan.entries)?;
        pass_all(&mut self.items, &plan, number, count);
        self.halted = false;
        Ok(plan.passed)
    }

    /// What a commit passes and writes.
    fn plan(&self, skip: &[u128]) -> Result<Plan, AllocError>
        requires running { IsRunning (value_of self.now) }
        ensures { IfOk result (IsPlanned skip.now (value_of self.now)) }
    {
        let alloc = *self.segments.list.allocator();
        let room = self.segments.next_room();
        let base = self.segments.next_base();
        plan_of(alloc, &self.items, skip, room, base)
    }
}
