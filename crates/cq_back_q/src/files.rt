// One file of a queue, opened by its number.
ghost use Rattle.std.specs.Prelude.{◌≡◌, IfOk, IfErr, IsErrOf, IsSome};
ghost use Rattle.cq_disk.specs.Files.{IsThere};
ghost use Rattle.cq_disk.specs.Run.{Ran, OnlyReads};
ghost use Rattle.cq_small.specs.Store as small;
ghost use Rattle.cq_index.specs.Places.{index_name};
ghost use Rattle.cq_index.specs.Segments as index;
ghost use Rattle.cq_folder.specs.Held.{as_read, IsFormedAs, IsSettled};
ghost use Rattle.cq_folder.specs.Queue.{IsIndexAt, IsSmallAt};
ghost use Rattle.cq_back_q.specs.declared.error.BackError.TheVariants.{Fault as back_fault};
ghost use Rattle.cq_back_q.specs.Damage.{IfDamaged, IsDamaged};

use crate::error::BackError;
use cq_disk::{Disk, Kind, Name};
use cq_gate::GateError;
use cq_index::{Segment, SegmentError};
use cq_small::SmallStore;
use std::alloc::Global;

/// Opens the index of a queue's segment, which is there.
pub(crate) fn open_index<D: Disk>(
    alloc: Global,
    disk: &mut D,
    queue: u32,
    number: u64,
) -> Result<Segment, BackError>
    requires there { D.tells → IsSome (D.files disk.old (index_name queue number)) }
    requires settled { D.tells → IsSettled (D.files disk.old (index_name queue number)) }
    ensures named { IfOk result (λ segment. (index.name_of segment ≡ index_name queue number) × index.IsOpen segment) }
    ensures at { IfOk result (λ segment. D.tells → IsIndexAt segment (D.files disk.old (index_name queue number))) }
    ensures known { IfOk result
        (λ segment. D.tells → IsThere (D.files disk.old (index_name queue number)) (index.Knows segment)) }
    ensures damaged { IfErr result (λ error. IfDamaged error (IsDamaged D.tells queue (as_read (D.files disk.old)))) }
    ensures reads { D.tells → OnlyReads D.Disk disk.old disk.new }
    ensures ran { Ran D.Disk disk.old disk.new (IsErrOf result back_fault) }
{
    match Segment::open(alloc, disk, queue, number) {
        Ok(segment) => Ok(segment),
        Err(SegmentError::Fault) => Err(BackError::Fault),
        Err(SegmentError::Memory) => Err(BackError::Memory),
        Err(SegmentError::Damaged { place, found }) => Err(BackError::Damaged {
            name: Name {
                kind: Kind::Index,
                queue,
                number,
            },
            place,
            found,
        }),
    }
}

/// Opens the small store of a queue's segment, which is there.
pub(crate) fn open_small<D: Disk>(
    disk: &mut D,
    queue: u32,
    number: u64,
) -> Result<SmallStore, BackError>
    requires there { D.tells → IsSome (D.files disk.old (small.small_name queue number)) }
    requires settled { D.tells → IsSettled (D.files disk.old (small.small_name queue number)) }
    ensures named { IfOk result (λ store. (small.name_of store ≡ small.small_name queue number) × small.IsOpen store) }
    ensures at { IfOk result (λ store. D.tells → IsSmallAt store (D.files disk.old (small.small_name queue number))) }
    ensures formed { IfOk result (λ store. D.tells
        → IsFormedAs (small.small_name queue number) (as_read (D.files disk.old) (small.small_name queue number))) }
    ensures damaged { IfErr result (λ error. IfDamaged error (IsDamaged D.tells queue (as_read (D.files disk.old)))) }
    ensures reads { D.tells → OnlyReads D.Disk disk.old disk.new }
    ensures ran { Ran D.Disk disk.old disk.new (IsErrOf result back_fault) }
{
    match SmallStore::open(disk, queue, number) {
        Ok(store) => Ok(store),
        Err(GateError::Fault) => Err(BackError::Fault),
        Err(GateError::Damaged { place, found }) => Err(BackError::Damaged {
            name: Name {
                kind: Kind::Small,
                queue,
                number,
            },
            place,
            found,
        }),
    }
}
