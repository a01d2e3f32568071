// One entry, and its body.
ghost use Rattle.std.specs.Prelude.{◌≡◌, ◌∷◌, ◌+◌, ◌<◌, [], IfOk, IfErr, IsErrOf, OnOk, slice_index};
ghost use Rattle.cq_disk.specs.Run.{Ran, OnlyReads};
ghost use Rattle.cq_entry.specs.Entry.{IsEntry, entry_bytes};
ghost use Rattle.cq_small.specs.Store.{name_of as store_name};
ghost use Rattle.cq_index.specs.Places.{index_name, place_of};
ghost use Rattle.cq_bulk.specs.Bodies.{IsWindow};
ghost use Rattle.cq_folder.specs.Held.{as_read};
ghost use Rattle.cq_back_q.specs.declared.error.BackError.TheVariants.{Fault as back_fault, Damaged};
ghost use Rattle.cq_back_q.specs.Found.{IsBodyOf};
ghost use Rattle.cq_back_q.specs.Read.{StandsAs};
ghost use Rattle.cq_back_q.specs.Damage.{IfDamaged, IsMisread};
ghost use Rattle.cq_back_q.specs.Reading.{CanTake, HaveReadBefore, IsNext, ReadsMore};

use crate::error::BackError;
use crate::found::HeldEntry;
use crate::taken::Reader;
use cq_bulk::{Bodies, BodyError};
use cq_bytes::Body;
use cq_disk::{Disk, Kind, Name};
use cq_entry::{ENTRY_BYTES, EntryKind, encode};
use cq_gate::HEADER_LEN;
use cq_small::SmallStore;
use std::alloc::Global;

/// The byte of an entry at which its id begins.
const ID_AT: u8 = 8;

/// The byte of an entry at which its place begins.
const PLACE_AT: u8 = 24;

/// Takes a present entry and its body in. `Damaged` where its id was taken before, or where it is a small one and no record
/// of its length stands at its place.
pub(crate) fn take_in<D: Disk>(
    alloc: Global,
    disk: &mut D,
    store: &SmallStore,
    next: HeldEntry,
    reader: &mut Reader,
) -> Result<(), BackError>
    requires next { IsNext next store.now }
    requires told { D.tells → CanTake next store.now reader.old.window (D.files disk.old) }
    requires read { HaveReadBefore D.tells next.queue (D.files disk.old) next.segment next.at reader.old.taken }
    ensures taken { OnOk result (ReadsMore D.tells next.queue (D.files disk.old)
        ((next.segment, next.at) ∷ []) reader.old.taken reader.new.taken) }
    ensures window { D.tells → IsWindow reader.new.window (D.files disk.old (store_name store.now)) }
    ensures damaged { IfErr result
        (λ error. IfDamaged error (IsMisread D.tells next.queue (as_read (D.files disk.old)))) }
    ensures reads { D.tells → OnlyReads D.Disk disk.old disk.new }
    ensures ran { Ran D.Disk disk.old disk.new (IsErrOf result back_fault) }
{
    if !reader.taken.ids.insert(next.entry.id)? {
        return Err(broken(&next, ID_AT));
    }
    match body_of(alloc, disk, store, &next, &mut reader.window) {
        Ok(body) => {
            reader.taken.held.push(next)?;
            reader.taken.bodies.push(body)?;
            Ok(())
        }
        Err(error) => Err(error),
    }
}

/// The body of an entry, out of the small store of its segment: none of a shared one. `Damaged` where it is a small one and
/// no record of its length stands at its place.
fn body_of<D: Disk>(
    alloc: Global,
    disk: &mut D,
    store: &SmallStore,
    held: &HeldEntry,
    window: &mut Bodies,
) -> Result<Option<Body>, BackError>
    requires next { IsNext held.now store.now }
    requires told { D.tells → CanTake held.now store.now window.old (D.files disk.old) }
    ensures fits { IfOk result (IsBodyOf held.now.queue held.now) }
    ensures stands { IfOk result (λ body. D.tells → StandsAs (as_read (D.files disk.old)) held.now body) }
    ensures window { D.tells → IsWindow window.new (D.files disk.old (store_name store.now)) }
    ensures damaged { IfErr result
        (λ error. IfDamaged error (IsMisread D.tells held.now.queue (as_read (D.files disk.old)))) }
    ensures reads { D.tells → OnlyReads D.Disk disk.old disk.new }
    ensures ran { Ran D.Disk disk.old disk.new (IsErrOf result back_fault) }
{
    let entry = held.entry;
    if entry.kind == EntryKind::Shared {
        return Ok(None);
    }
    match window.body(alloc, disk, held.queue, store, entry.place, entry.len) {
        Ok(Some(body)) => Ok(Some(body)),
        Ok(None) => Err(broken(held, PLACE_AT)),
        Err(BodyError::Fault) => Err(BackError::Fault),
        Err(BodyError::Memory) => Err(BackError::Memory),
    }
}

/// The entry doesn't fit, for its field that begins at this byte.
fn broken(held: &HeldEntry, byte: u8) -> BackError
    requires valid { IsEntry held.now.entry }
    requires inside { byte < 32 }
    ensures { result ≡ Damaged (index_name held.now.queue held.now.segment) (place_of held.now.at + byte)
        (slice_index (entry_bytes held.now.entry) byte) }
{
    BackError::Damaged {
        name: Name {
            kind: Kind::Index,
            queue: held.queue,
            number: held.segment,
        },
        place: HEADER_LEN + ENTRY_BYTES as u64 * held.at as u64 + byte as u64,
        found: encode(&held.entry)[byte as usize],
    }
}
