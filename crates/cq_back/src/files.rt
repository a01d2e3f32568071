// The two files of a queue's segment, opened where they are there.
ghost use Rattle.std.specs.Prelude.{◌≡◌, ◌≢◌, ◌⊎◌, ℕ, ◌≤◌, ◌<◌, length, slice_index, Some, None, true, false, IfOk, IfErr, OnOk, OnErr, IsSome, IsErrOf};
ghost use Rattle.cq_disk.specs.declared.name.Name.{Name};
ghost use Rattle.cq_disk.specs.Files.{IsImage, SameFiles, Becomes};
ghost use Rattle.cq_disk.specs.Run.{Ran, LeavesOnly};
ghost use Rattle.cq_gate.specs.Format.{IsGated};
ghost use Rattle.cq_small.specs.Store.{name_of as store_name, IsSmallStore};
ghost use Rattle.cq_index.specs.Opened.{BreaksIndex};
ghost use Rattle.cq_index.specs.Segments.{name_of, count_of, present_of, IsOpen, IsVacant, IsSegment};
ghost use Rattle.cq_folder.specs.Held.{as_read, IsSettled};
ghost use Rattle.cq_back.specs.declared.error.BackError.TheVariants.{Fault as back_fault};
ghost use Rattle.cq_back.specs.Cause.{HasCause};
ghost use Rattle.cq_back.specs.Folder.{index_file, small_file, file_bytes};
ghost use Rattle.cq_back.specs.Read.{IsIndexOf, IfDamaged};
ghost use Rattle.cq_back.specs.Found.{BreaksFile, BreaksSmall};

use crate::error::BackError;
use cq_disk::{Disk, Fault, Kind, Name};
use cq_gate::GateError;
use cq_index::{Segment, SegmentError};
use cq_small::SmallStore;
use std::alloc::Global;

/// The index of the queue.
pub(crate) const INDEX: Name = Name {
    kind: Kind::Index,
    queue: 0,
    number: 0,
};

/// The small store of the queue.
pub(crate) const SMALL: Name = Name {
    kind: Kind::Small,
    queue: 0,
    number: 0,
};

/// Opens the index, which is there exactly where that is told; else the segment is vacant.
pub(crate) fn open_index<D: Disk>(
    alloc: Global,
    disk: &mut D,
    there: bool,
) -> Result<Segment, BackError>
    requires there { D.tells → there ≡ true → IsSome (D.files disk.old index_file) }
    requires absent { D.tells → there ≡ false → D.files disk.old index_file ≡ None }
    requires settled { D.tells → IsSettled (D.files disk.old index_file) }
    ensures name { IfOk result (λ segment. name_of segment ≡ index_file) }
    ensures open { IfOk result (λ segment. there ≡ true → IsOpen segment) }
    ensures vacant { IfOk result (λ segment. there ≡ false → IsVacant segment) }
    ensures index { IfOk result (λ segment. D.tells → IsIndexOf (count_of segment) (present_of segment) (file_bytes (D.files disk.old index_file))) }
    ensures segment { IfOk result (λ segment. D.tells → IsSegment segment (D.files disk.old index_file)) }
    ensures damaged { IfErr result (λ error. IfDamaged error (λ name place found. D.tells → BreaksFile (as_read (D.files disk.old)) index_file BreaksIndex name place found)) }
    ensures cause { IfErr result (λ error. IfDamaged error HasCause) }
    ensures files { D.tells → SameFiles (D.files disk.old) (D.files disk.new) }
    ensures any_moment { D.tells → LeavesOnly D.Disk disk.old disk.new (IsImage (D.files disk.old)) }
    ensures ran { Ran D.Disk disk.old disk.new (IsErrOf result back_fault) }
{
    if !there {
        return Ok(Segment::vacant(alloc, 0, 0));
    }
    match Segment::open(alloc, disk, 0, 0) {
        Ok(segment) => Ok(segment),
        Err(SegmentError::Fault) => Err(BackError::Fault),
        Err(SegmentError::Memory) => Err(BackError::Memory),
        Err(SegmentError::Damaged { place, found }) => Err(BackError::Damaged {
            name: INDEX,
            place,
            found,
        }),
    }
}

/// Opens the small store, which is there exactly where that is told; else it is vacant.
pub(crate) fn open_small<D: Disk>(disk: &mut D, there: bool) -> Result<SmallStore, BackError>
    requires there { D.tells → there ≡ true → IsSome (D.files disk.old small_file) }
    requires absent { D.tells → there ≡ false → D.files disk.old small_file ≡ None }
    requires settled { D.tells → IsSettled (D.files disk.old small_file) }
    ensures name { IfOk result (λ small. store_name small ≡ small_file) }
    ensures formed { OnOk result (D.tells → IsGated 2 (file_bytes (D.files disk.old small_file))) }
    ensures small { IfOk result (λ small. D.tells → IsSmallStore small (D.files disk.old small_file)) }
    ensures damaged { IfErr result (λ error. IfDamaged error (λ name place found. D.tells → BreaksFile (as_read (D.files disk.old)) small_file BreaksSmall name place found)) }
    ensures cause { IfErr result (λ error. IfDamaged error HasCause) }
    ensures files { D.tells → SameFiles (D.files disk.old) (D.files disk.new) }
    ensures any_moment { D.tells → LeavesOnly D.Disk disk.old disk.new (IsImage (D.files disk.old)) }
    ensures ran { Ran D.Disk disk.old disk.new (IsErrOf result back_fault) }
{
    if !there {
        return Ok(SmallStore::vacant(0, 0));
    }
    match SmallStore::open(disk, 0, 0) {
        Ok(store) => Ok(store),
        Err(GateError::Fault) => Err(BackError::Fault),
        Err(GateError::Damaged { place, found }) => Err(BackError::Damaged {
            name: SMALL,
            place,
            found,
        }),
    }
}
