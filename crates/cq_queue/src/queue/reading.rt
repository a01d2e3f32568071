// The body of the first message that waits.
ghost use Rattle.std.specs.Prelude.{◌≡◌, ◌+◌, length, slice_get, IfErr, OnOk, IsErr};
ghost use Rattle.cq_disk.specs.Run.{Ran, OnlyReads};
ghost use Rattle.cq_items.specs.Items.{waiting_items};
ghost use Rattle.cq_small.specs.Record.{StandsIn};
ghost use Rattle.cq_queue.specs.declared.segment.QueueSegment.{QueueSegment as TheSegment};
ghost use Rattle.cq_queue.specs.declared.error.QueueError.TheVariants.{Fault as queue_fault};
ghost use Rattle.cq_queue.specs.QueueSegment.{HasWhole, small_in};
ghost use Rattle.cq_queue.specs.Lists.{AreAt, StandsAt};

use crate::{QueueCore, QueueError, Segments};
use cq_disk::{Disk, Fault};

impl Segments {
    ghost use Rattle.cq_queue.specs.Calls.{list_of, queue_of};
    ghost use Rattle.cq_queue.specs.Reads.{CanReadAt};

    /// Fills a buffer with the body of the record that stands at a place of the small store of the segment at this index,
    /// whose length is the buffer's.
    pub(crate) fn read<D: Disk>(
        &mut self,
        disk: &mut D,
        index: usize,
        place: u64,
        into: &mut [u8],
    ) -> Result<(), Fault>
        requires can { CanReadAt self.old index place (length into.old) }
        requires at { D.tells → AreAt (queue_of self.old) (list_of self.old) (D.files disk.old) }
        requires stands { D.tells → (p : TheSegment) → StandsAt (list_of self.old) index p
            → HasWhole (small_in (D.files disk.old) p) place (length into.old) }
        ensures body { OnOk result (D.tells → (p : TheSegment) → StandsAt (list_of self.old) index p
            → StandsIn (small_in (D.files disk.old) p) place into.new) }
        ensures same { self.new ≡ self.old }
        ensures reads { D.tells → OnlyReads D.Disk disk.old disk.new }
        ensures ran { Ran D.Disk disk.old disk.new (IsErr result) }
        ensures calls { OnOk result (D.moment disk.new ≡ D.moment disk.old + 1) }
    {
        self.list[index].read(disk, place, into)
    }
}

impl QueueCore {
    ghost use Rattle.cq_queue.specs.Values.{IsOnDisk, IsRunning, IsSameNumber, value_of};
    ghost use Rattle.cq_queue.specs.QueueCalls.{CanRead, HasBody, IsBodyInMemory, calls_to_read};

    /// Fills a buffer with the body of the first message that waits, a small one of this id, whose length is the buffer's:
    /// from memory, or by one read where it is committed. It takes no memory.
    pub fn read<D: Disk>(
        &mut self,
        disk: &mut D,
        id: u128,
        into: &mut [u8],
    ) -> Result<(), QueueError>
        requires can { CanRead (value_of self.old) id (length into.old) }
        requires at { D.tells → IsOnDisk (value_of self.old) (D.files disk.old) }
        ensures same { OnOk result (value_of self.new ≡ value_of self.old) }
        ensures memory { OnOk result (IsBodyInMemory (slice_get (waiting_items (value_of self.old).items) 0) into.new) }
        ensures body { OnOk result (D.tells → HasBody D.Disk (value_of self.old) disk.old id into.new) }
        ensures err { IfErr result (λ error. error ≡ queue_fault) }
        ensures own { IsSameNumber (value_of self.old) (value_of self.new) }
        ensures at { D.tells → IsRunning (value_of self.new) → IsOnDisk (value_of self.new) (D.files disk.new) }
        ensures reads { D.tells → OnlyReads D.Disk disk.old disk.new }
        ensures ran { Ran D.Disk disk.old disk.new (IsErr result) }
        ensures calls { OnOk result (D.moment disk.new
            ≡ D.moment disk.old + calls_to_read (slice_get (waiting_items (value_of self.old).items) 0)) }
    {
        let Some(first) = self.items.first_item() else {
            unreachable!();
        };
        if let Some(stand) = first.stand() {
            let Some(index) = self.segments.place_of(stand.segment) else {
                unreachable!();
            };
            self.segments.read(disk, index, stand.place, into)?;
            return Ok(());
        }
        let Some(body) = first.body() else {
            unreachable!();
        };
        into.copy_from_slice(body.bytes());
        Ok(())
    }
}
