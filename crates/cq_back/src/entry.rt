// One entry, and the record of its message.
ghost use Rattle.std.specs.Prelude.{◌≡◌, ◌≤◌, ◌<◌, ◌+◌, MatchOption, IfOk, IfErr, IfSome, OnOk, length, slice_index, IsErrOf};
ghost use Rattle.cq_disk.specs.Files.{IsImage, SameFiles};
ghost use Rattle.cq_disk.specs.Run.{Ran, LeavesOnly};
ghost use Rattle.cq_entry.specs.Entry.{IsEntry, IsPresent, entry_bytes};
ghost use Rattle.cq_small.specs.Store.{name_of as store_name, len_of as store_len, IsSmallStore};
ghost use Rattle.cq_index.specs.Places.{entry_at, place_of};
ghost use Rattle.cq_folder.specs.Held.{as_read, contents_of};
ghost use Rattle.cq_back.specs.declared.error.BackError.TheVariants.{Fault as back_fault, Damaged};
ghost use Rattle.cq_back.specs.Cause.{HasCause};
ghost use Rattle.cq_back.specs.Folder.{index_file, small_file, file_bytes};
ghost use Rattle.cq_back.specs.Read.{AreIdsOf, IsLacking, IsBodyAt, Takes, Breaks, IfDamaged};

use crate::error::BackError;
use crate::files::INDEX;
use crate::found::HeldEntry;
use crate::taken::Taken;
use cq_bytes::Body;
use cq_disk::Disk;
use cq_entry::{Entry, EntryKind, encode};
use cq_small::SmallStore;
use std::alloc::Global;

/// Takes a present entry and its message in. `Damaged` exactly where the entry doesn't fit what is held, or the store.
pub(crate) fn take_in<D: Disk>(
    alloc: Global,
    disk: &mut D,
    small: &mut SmallStore,
    at: u32,
    entry: Entry,
    taken: &mut Taken,
) -> Result<(), BackError>
    requires valid { IsEntry entry }
    requires few { at < 4096 }
    requires present { D.tells → IsPresent (entry_at (file_bytes (D.files disk.old index_file)) at) entry }
    requires named { store_name small.old ≡ small_file }
    requires small { D.tells → IsSmallStore small.old (D.files disk.old small_file) }
    requires ids { AreIdsOf taken.old.ids taken.old.held.items }
    ensures ok { OnOk result (Takes D.tells (contents_of (as_read (D.files disk.old)) small_file) (store_len small.old) at entry taken.old.held.items taken.new.held.items taken.old.lines taken.new.lines) }
    ensures ids { OnOk result (AreIdsOf taken.new.ids taken.new.held.items) }
    ensures damaged { IfErr result (λ error. IfDamaged error (λ name place found. D.tells → Breaks (contents_of (as_read (D.files disk.old)) small_file) (file_bytes (D.files disk.old index_file)) taken.old.held.items at entry name place found)) }
    ensures cause { IfErr result (λ error. IfDamaged error HasCause) }
    ensures same { small.new ≡ small.old }
    ensures files { D.tells → SameFiles (D.files disk.old) (D.files disk.new) }
    ensures any_moment { D.tells → LeavesOnly D.Disk disk.old disk.new (IsImage (D.files disk.old)) }
    ensures ran { Ran D.Disk disk.old disk.new (IsErrOf result back_fault) }
{
    if !taken.ids.insert(entry.id)? {
        return Err(broken(&entry, at, 8));
    }
    if entry.kind == EntryKind::Shared {
        return Err(broken(&entry, at, 1));
    }
    let Some(body) = body_of(alloc, disk, small, entry.place, entry.len)? else {
        return Err(broken(&entry, at, 24));
    };
    taken.held.push(HeldEntry {
        queue: 0,
        segment: 0,
        at,
        entry,
    })?;
    taken.lines.push(0, entry.id, body)?;
    Ok(())
}

/// The entry at a place doesn't fit, for its field that begins at this byte.
fn broken(entry: &Entry, at: u32, byte: u8) -> BackError
    requires valid { IsEntry entry.now }
    requires few { at < 4096 }
    requires inside { byte < 32 }
    ensures { result ≡ Damaged index_file (place_of at + byte) (slice_index (entry_bytes entry.now) byte) }
{
    BackError::Damaged {
        name: INDEX,
        place: 128 + 32 * at as u64 + byte as u64,
        found: encode(entry)[byte as usize],
    }
}

/// The body of the record at a place. `None` exactly where no record of this length stands there.
fn body_of<D: Disk>(
    alloc: Global,
    disk: &mut D,
    small: &mut SmallStore,
    place: u64,
    len: u32,
) -> Result<Option<Body>, BackError>
    requires short { len ≤ 1048576 }
    requires named { store_name small.old ≡ small_file }
    requires small { D.tells → IsSmallStore small.old (D.files disk.old small_file) }
    ensures body { IfOk result (λ body. D.tells → MatchOption body (IsLacking (contents_of (as_read (D.files disk.old)) small_file) place len) (λ b. IsBodyAt (contents_of (as_read (D.files disk.old)) small_file) place len b)) }
    ensures fits { IfOk result (λ body. IfSome body (λ b. (length b ≡ len) × (place + len + 5 ≤ store_len small.old))) }
    ensures sound { IfErr result (λ error. IfDamaged error (λ name place found. ⊥)) }
    ensures same { small.new ≡ small.old }
    ensures files { D.tells → SameFiles (D.files disk.old) (D.files disk.new) }
    ensures any_moment { D.tells → LeavesOnly D.Disk disk.old disk.new (IsImage (D.files disk.old)) }
    ensures ran { Ran D.Disk disk.old disk.new (IsErrOf result back_fault) }
{
    let size = len as u64 + 5;
    if small.len() < size || small.len() - size < place {
        return Ok(None);
    }
    if !small.whole(disk, place, len)? {
        return Ok(None);
    }
    let mut bytes = vec![in alloc; 0; len as usize]?;
    small.read(disk, place, &mut bytes)?;
    Ok(Some(Body::from_vec(bytes)))
}
