// The present entries of a segment, with their messages.
ghost use Rattle.std.specs.Prelude.{◌≡◌, ◌≤◌, ◌<◌, ◌+◌, IfOk, IfErr, IfSome, OnOk, IsErrOf};
ghost use Rattle.cq_disk.specs.Files.{IsImage, SameFiles};
ghost use Rattle.cq_disk.specs.Run.{Ran, LeavesOnly};
ghost use Rattle.cq_entry.specs.Entry.{IsEntry, IsPresent, IsSeen};
ghost use Rattle.cq_small.specs.Store.{name_of as store_name, len_of as store_len, IsSmallStore};
ghost use Rattle.cq_index.specs.Places.{entry_at};
ghost use Rattle.cq_index.specs.Segments.{name_of, count_of, present_of, IsSegment};
ghost use Rattle.cq_folder.specs.Held.{as_read, contents_of};
ghost use Rattle.cq_back.specs.declared.error.BackError.TheVariants.{Fault as back_fault};
ghost use Rattle.cq_back.specs.Cause.{HasCause};
ghost use Rattle.cq_back.specs.Folder.{index_file, small_file, file_bytes};
ghost use Rattle.cq_back.specs.Read.{IsIndexOf, AreIdsOf, IsRead, AreTaken, AreWithin, BreaksFirst, IfDamaged, piece, seen_of};

use crate::entry::take_in;
use crate::error::BackError;
use crate::files::INDEX;
use crate::found::HeldEntry;
use crate::taken::Taken;
use cq_disk::Disk;
use cq_entry::Entry;
use cq_index::{Segment, SegmentError};
use cq_journal::Lines;
use cq_small::SmallStore;
use std::alloc::Global;
use std::collections::BTreeSet;

/// Reads the present entries of a segment in order, each with its message. `Damaged` exactly where one doesn't fit, or, on
/// a disk that doesn't tell its files, where bytes that were read aren't a present entry's.
pub(crate) fn read_messages<D: Disk>(
    alloc: Global,
    disk: &mut D,
    segment: &mut Segment,
    small: &mut SmallStore,
) -> Result<(Vec<HeldEntry>, Lines), BackError>
    requires name { name_of segment.old ≡ index_file }
    requires index { D.tells → IsIndexOf (count_of segment.old) (present_of segment.old) (file_bytes (D.files disk.old index_file)) }
    requires segment { D.tells → IsSegment segment.old (D.files disk.old index_file) }
    requires named { store_name small.old ≡ small_file }
    requires small { D.tells → IsSmallStore small.old (D.files disk.old small_file) }
    ensures taken { IfOk result (λ read. AreTaken (count_of segment.old) read.0.items read.1) }
    ensures within { IfOk result (λ read. AreWithin (store_len small.old) read.0.items) }
    ensures read { IfOk result (λ read. D.tells → IsRead (contents_of (as_read (D.files disk.old))) (file_bytes (D.files disk.old index_file)) (count_of segment.old) read.0.items read.1) }
    ensures damaged { IfErr result (λ error. IfDamaged error (λ name place found. D.tells → BreaksFirst (contents_of (as_read (D.files disk.old))) (file_bytes (D.files disk.old index_file)) name place found)) }
    ensures cause { IfErr result (λ error. IfDamaged error HasCause) }
    ensures same { segment.new ≡ segment.old }
    ensures same_small { small.new ≡ small.old }
    ensures files { D.tells → SameFiles (D.files disk.old) (D.files disk.new) }
    ensures any_moment { D.tells → LeavesOnly D.Disk disk.old disk.new (IsImage (D.files disk.old)) }
    ensures ran { Ran D.Disk disk.old disk.new (IsErrOf result back_fault) }
{
    let mut taken = Taken {
        held: Vec::new(alloc),
        lines: Lines::new(alloc),
        ids: BTreeSet::new(alloc),
    };
    for at in 0..segment.count() {
        match read_next(alloc, disk, segment, small, at, &mut taken) {
            Ok(()) => {}
            Err(error) => return Err(error),
        }
    }
    let Taken { held, lines, .. } = taken;
    Ok((held, lines))
}

/// Reads the entry at a place below the count and, where it is present, its message.
fn read_next<D: Disk>(
    alloc: Global,
    disk: &mut D,
    segment: &mut Segment,
    small: &mut SmallStore,
    at: u32,
    taken: &mut Taken,
) -> Result<(), BackError>
    requires name { name_of segment.old ≡ index_file }
    requires below { at < count_of segment.old }
    requires few { count_of segment.old ≤ 4096 }
    requires index { D.tells → IsIndexOf (count_of segment.old) (present_of segment.old) (file_bytes (D.files disk.old index_file)) }
    requires segment { D.tells → IsSegment segment.old (D.files disk.old index_file) }
    requires named { store_name small.old ≡ small_file }
    requires small { D.tells → IsSmallStore small.old (D.files disk.old small_file) }
    requires ids { AreIdsOf taken.old.ids taken.old.held.items }
    ensures ids { OnOk result (AreIdsOf taken.new.ids taken.new.held.items) }
    ensures taken { OnOk result (AreTaken at taken.old.held.items taken.old.lines → AreTaken (at + 1) taken.new.held.items taken.new.lines) }
    ensures within { OnOk result (AreWithin (store_len small.old) taken.old.held.items → AreWithin (store_len small.old) taken.new.held.items) }
    ensures read { OnOk result (D.tells → IsRead (contents_of (as_read (D.files disk.old))) (file_bytes (D.files disk.old index_file)) at taken.old.held.items taken.old.lines → IsRead (contents_of (as_read (D.files disk.old))) (file_bytes (D.files disk.old index_file)) (at + 1) taken.new.held.items taken.new.lines) }
    ensures damaged { IfErr result (λ error. IfDamaged error (λ name place found. D.tells → IsRead (contents_of (as_read (D.files disk.old))) (file_bytes (D.files disk.old index_file)) at taken.old.held.items taken.old.lines → AreTaken at taken.old.held.items taken.old.lines → BreaksFirst (contents_of (as_read (D.files disk.old))) (file_bytes (D.files disk.old index_file)) name place found)) }
    ensures cause { IfErr result (λ error. IfDamaged error HasCause) }
    ensures same { segment.new ≡ segment.old }
    ensures same_small { small.new ≡ small.old }
    ensures files { D.tells → SameFiles (D.files disk.old) (D.files disk.new) }
    ensures any_moment { D.tells → LeavesOnly D.Disk disk.old disk.new (IsImage (D.files disk.old)) }
    ensures ran { Ran D.Disk disk.old disk.new (IsErrOf result back_fault) }
{
    match next_entry(disk, segment, at) {
        Ok(None) => Ok(()),
        Ok(Some(entry)) => take_in(alloc, disk, small, at, entry, taken),
        Err(error) => Err(error),
    }
}

/// The entry at a place below the count. `None` exactly where it isn't present.
fn next_entry<D: Disk>(
    disk: &mut D,
    segment: &mut Segment,
    at: u32,
) -> Result<Option<Entry>, BackError>
    requires name { name_of segment.old ≡ index_file }
    requires below { at < count_of segment.old }
    requires index { D.tells → IsIndexOf (count_of segment.old) (present_of segment.old) (file_bytes (D.files disk.old index_file)) }
    requires segment { D.tells → IsSegment segment.old (D.files disk.old index_file) }
    ensures valid { IfOk result (λ entry. IfSome entry IsEntry) }
    ensures seen { IfOk result (λ entry. D.tells → IsSeen (piece (file_bytes (D.files disk.old index_file)) at) (seen_of entry)) }
    ensures stands { IfOk result (λ entry. IfSome entry (λ e. D.tells → IsPresent (entry_at (file_bytes (D.files disk.old index_file)) at) e)) }
    ensures sound { IfErr result (λ error. IfDamaged error (λ name place found. D.tells → ⊥)) }
    ensures cause { IfErr result (λ error. IfDamaged error HasCause) }
    ensures same { segment.new ≡ segment.old }
    ensures files { D.tells → SameFiles (D.files disk.old) (D.files disk.new) }
    ensures any_moment { D.tells → LeavesOnly D.Disk disk.old disk.new (IsImage (D.files disk.old)) }
    ensures ran { Ran D.Disk disk.old disk.new (IsErrOf result back_fault) }
{
    match segment.entry(disk, at) {
        Ok(entry) => Ok(entry),
        Err(SegmentError::Fault) => Err(BackError::Fault),
        Err(SegmentError::Memory) => Err(BackError::Memory),
        Err(SegmentError::Damaged { place, found }) => Err(BackError::Damaged {
            name: INDEX,
            place,
            found,
        }),
    }
}
