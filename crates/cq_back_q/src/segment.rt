// The present entries of one segment, with their bodies.
ghost use Rattle.std.specs.Prelude.{◌≡◌, false, IfErr, IsErrOf, MatchOption, OnOk};
ghost use Rattle.cq_disk.specs.Run.{Ran, OnlyReads};
ghost use Rattle.cq_small.specs.Store.{small_name};
ghost use Rattle.cq_index.specs.Places.{index_name};
ghost use Rattle.cq_index.specs.Segments.{name_of, present_of};
ghost use Rattle.cq_bulk.specs.Entries.{AreRead};
ghost use Rattle.cq_folder.specs.Held.{as_read};
ghost use Rattle.cq_folder.specs.Queue.{RiseAs, has_number, listed_in, stores_of};
ghost use Rattle.cq_back_q.specs.declared.error.BackError.TheVariants.{Fault as back_fault};
ghost use Rattle.cq_back_q.specs.Damage.{IfDamaged, IsMisread};
ghost use Rattle.cq_back_q.specs.Reading.{ArePair, HaveReadBefore, KnowAmong, KnowBoth, KnowWithWindow, ReadsMore, Rise, IsStoreAt, error_of};

use crate::entry::take_in;
use crate::error::BackError;
use crate::found::HeldEntry;
use crate::taken::Reader;
use cq_bulk::present_entries;
use cq_disk::{Disk, Kind, Name};
use cq_entry::Entry;
use cq_index::{Segment, SegmentError};
use cq_small::SmallStore;
use std::alloc::Global;

/// Reads the present entries of a segment with their bodies, which stand in the one of these small stores with its number.
/// Where none has it, no small entry fits.
pub(crate) fn read_segment<D: Disk>(
    alloc: Global,
    disk: &mut D,
    queue: u32,
    segment: &Segment,
    stores: &[SmallStore],
    reader: &mut Reader,
) -> Result<(), BackError>
    requires index { name_of segment.now ≡ index_name queue (name_of segment.now).number }
    requires stores { RiseAs (small_name queue) (stores_of stores.now) }
    requires told { D.tells → KnowAmong queue segment.now stores.now (D.files disk.old) }
    requires read { HaveReadBefore D.tells queue (D.files disk.old) (name_of segment.now).number 0 reader.old.taken }
    ensures taken { OnOk result (ReadsMore D.tells queue (D.files disk.old)
        (listed_in (name_of segment.now).number (present_of segment.now)) reader.old.taken reader.new.taken) }
    ensures damaged { IfErr result (λ error. IfDamaged error (IsMisread D.tells queue (as_read (D.files disk.old)))) }
    ensures reads { D.tells → OnlyReads D.Disk disk.old disk.new }
    ensures ran { Ran D.Disk disk.old disk.new (IsErrOf result back_fault) }
{
    let number = segment.number();
    match store_of(stores, number) {
        Some(place) => read_beside(alloc, disk, queue, segment, &stores[place], reader),
        None => {
            let vacant = SmallStore::vacant(queue, number);
            read_beside(alloc, disk, queue, segment, &vacant, reader)
        }
    }
}

/// Which of these small stores has this number. `None` exactly where none has it.
fn store_of(stores: &[SmallStore], number: u64) -> Option<usize>
    requires { Rise stores.now }
    ensures { MatchOption result (has_number (stores_of stores.now) number ≡ false)
        (λ place. IsStoreAt stores.now place number) }
{
    stores
        .binary_search_by_key(&number, |store| store.number())
        .ok()
}

/// Reads the present entries of a segment with their bodies, which stand in this small store.
fn read_beside<D: Disk>(
    alloc: Global,
    disk: &mut D,
    queue: u32,
    segment: &Segment,
    store: &SmallStore,
    reader: &mut Reader,
) -> Result<(), BackError>
    requires pair { ArePair queue segment.now store.now }
    requires told { D.tells → KnowBoth segment.now store.now (D.files disk.old) }
    requires read { HaveReadBefore D.tells queue (D.files disk.old) (name_of segment.now).number 0 reader.old.taken }
    ensures taken { OnOk result (ReadsMore D.tells queue (D.files disk.old)
        (listed_in (name_of segment.now).number (present_of segment.now)) reader.old.taken reader.new.taken) }
    ensures damaged { IfErr result (λ error. IfDamaged error (IsMisread D.tells queue (as_read (D.files disk.old)))) }
    ensures reads { D.tells → OnlyReads D.Disk disk.old disk.new }
    ensures ran { Ran D.Disk disk.old disk.new (IsErrOf result back_fault) }
{
    reader.window.clear();
    match present_entries(alloc, disk, queue, segment) {
        Ok(entries) => take_all(alloc, disk, queue, segment, store, &entries, reader),
        Err(error) => Err(in_index(queue, segment.number(), error)),
    }
}

/// Takes the present entries of a segment in, which were read.
fn take_all<D: Disk>(
    alloc: Global,
    disk: &mut D,
    queue: u32,
    segment: &Segment,
    store: &SmallStore,
    entries: &[Entry],
    reader: &mut Reader,
) -> Result<(), BackError>
    requires pair { ArePair queue segment.now store.now }
    requires told { D.tells → KnowWithWindow segment.now store.now reader.old.window (D.files disk.old) }
    requires entries { AreRead D.Disk segment.now disk.old entries.now }
    requires read { HaveReadBefore D.tells queue (D.files disk.old) (name_of segment.now).number 0 reader.old.taken }
    ensures taken { OnOk result (ReadsMore D.tells queue (D.files disk.old)
        (listed_in (name_of segment.now).number (present_of segment.now)) reader.old.taken reader.new.taken) }
    ensures damaged { IfErr result (λ error. IfDamaged error (IsMisread D.tells queue (as_read (D.files disk.old)))) }
    ensures reads { D.tells → OnlyReads D.Disk disk.old disk.new }
    ensures ran { Ran D.Disk disk.old disk.new (IsErrOf result back_fault) }
{
    for index in 0..entries.len() {
        let next = HeldEntry {
            queue,
            segment: segment.number(),
            at: segment.present()[index],
            entry: entries[index],
        };
        match take_in(alloc, disk, store, next, reader) {
            Ok(()) => {}
            Err(error) => return Err(error),
        }
    }
    Ok(())
}

/// The error of a segment of this number, of its file.
fn in_index(queue: u32, number: u64, error: SegmentError) -> BackError
    ensures { result ≡ error_of (index_name queue number) error }
{
    match error {
        SegmentError::Fault => BackError::Fault,
        SegmentError::Memory => BackError::Memory,
        SegmentError::Damaged { place, found } => BackError::Damaged {
            name: Name {
                kind: Kind::Index,
                queue,
                number,
            },
            place,
            found,
        },
    }
}
