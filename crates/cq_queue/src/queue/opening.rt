// A queue's files are opened, and its messages are found in them.
ghost use Rattle.std.specs.Prelude.{◌≡◌, ◌↔◌, ◌++◌, ◌∷◌, [], All, length, map, slice_get, true, IfOk, IfErr, IsErrOf, OnOk};
ghost use Rattle.cq_disk.specs.Run.{Ran, OnlyReads};
ghost use Rattle.cq_entry.specs.Entry.{IsEntry};
ghost use Rattle.cq_small.specs.Store.{small_name, name_of as small_file_of};
ghost use Rattle.cq_index.specs.Places.{index_name};
ghost use Rattle.cq_index.specs.Segments.{name_of as index_file_of};
ghost use Rattle.cq_folder.specs.Queue.{RiseAs, stores_of};
ghost use Rattle.cq_items.specs.Items.{fresh_items, undecided_items};
ghost use Rattle.cq_queue.specs.declared.error.QueueError.TheVariants.{Fault as queue_fault};
ghost use Rattle.cq_queue.specs.Lists.{AreSegments};
ghost use Rattle.cq_queue.specs.QueueSegment.{KnowsFiles, index_file, number_of, present_of, small_len};
ghost use Rattle.cq_queue.specs.Opening.{AreFiles, AreJoined, AreOnDisk, CanBeFound, CantFind, CantFindAny, FindsMore, HasFound, HasRecords, HaveRecords, IfDamaged, IsOpened, IsOutside, IsOutsideAmong, IsUnreadable, LiesIn, TakesStore, error_of, found_of, listed_as};

use crate::{QueueCore, QueueError, QueueSegment, Segments};
use cq_bulk::present_entries;
use cq_disk::{Disk, Kind, Name};
use cq_entry::{ENTRY_BYTES, Entry, EntryKind, encode};
use cq_gate::HEADER_LEN;
use cq_index::{Segment, SegmentError};
use cq_items::{Items, Stand};
use cq_small::SmallStore;
use std::alloc::{AllocError, Global};
use std::collections::VecDeque;

/// How many bytes of an entry stand before its place.
const PLACE_AT: usize = 24;

impl QueueCore {
    ghost use Rattle.cq_queue.specs.Values.{IsMost, IsOnDisk, value_of};

    /// The queue whose files these open indexes and small stores are: its messages are the present entries, in their
    /// order, and all wait. It reads each index once, and changes no file.
    ///
    /// `Damaged` never comes where the disk tells its files.
    pub fn open<D: Disk>(
        alloc: Global,
        disk: &mut D,
        queue: u32,
        segments: Vec<Segment>,
        stores: Vec<SmallStore>,
        length: u32,
    ) -> Result<QueueCore, QueueError>
        requires length { IsMost length }
        requires files { AreFiles queue segments.items stores.items }
        requires at { D.tells → AreOnDisk queue segments.items stores.items (D.files disk.old) }
        requires whole { D.tells → HaveRecords queue segments.items (D.files disk.old) }
        ensures ok { IfOk result (λ core. IsOpened queue length segments.items stores.items (value_of core)) }
        ensures at { IfOk result (λ core. D.tells → IsOnDisk (value_of core) (D.files disk.new)) }
        ensures damaged { IfErr result (λ error. IfDamaged error (IsUnreadable D.tells queue stores.items)) }
        ensures reads { D.tells → OnlyReads D.Disk disk.old disk.new }
        ensures ran { Ran D.Disk disk.old disk.new (IsErrOf result queue_fault) }
    {
        let list = join(alloc, queue, segments, stores)?;
        let segments = Segments::of(alloc, queue, length, list)?;
        let mut items = Items::new(alloc);
        match find_all(alloc, disk, queue, &segments.list, &mut items) {
            Ok(()) => Ok(QueueCore {
                items,
                segments,
                halted: false,
            }),
            Err(error) => Err(error),
        }
    }

    /// The committed message at this place among those that were never handed out: its index, its place there, and its
    /// entry. `None` exactly past the last.
    pub fn fresh(&self, at: usize) -> Option<(Name, u32, Entry)>
        ensures { result
            ≡ slice_get (map (listed_as (value_of self.now).queue) (fresh_items (value_of self.now).items)) at }
    {
        let Some(item) = self.items.fresh_item(at) else {
            return None;
        };
        let Some(stand) = item.stand() else {
            return None;
        };
        let name = Name {
            kind: Kind::Index,
            queue: self.segments.queue,
            number: stand.segment,
        };
        let entry = Entry {
            kind: item.kind(),
            len: item.len(),
            id: item.id(),
            place: stand.place,
        };
        Some((name, stand.at, entry))
    }
}

/// Each segment of a queue with the small store of its number; one without a store gets a vacant one.
fn join(
    alloc: Global,
    queue: u32,
    mut segments: Vec<Segment>,
    mut stores: Vec<SmallStore>,
) -> Result<VecDeque<QueueSegment>, AllocError>
    requires { AreFiles queue segments.items stores.items }
    ensures { IfOk result (λ list. AreJoined segments.items stores.items list.items) }
{
    let mut list = VecDeque::new(alloc);
    while let Some(segment) = segments.pop() {
        list.reserve(1)?;
        let joined = join_last(queue, segment, &mut stores);
        list.push_front_reserved(joined);
    }
    Ok(list)
}

/// A segment with the last of these small stores, where that has its number.
fn join_last(queue: u32, index: Segment, stores: &mut Vec<SmallStore>) -> QueueSegment
    requires index { index_file_of index ≡ index_name queue (index_file_of index).number }
    requires stores { RiseAs (small_name queue) (stores_of stores.old.items) }
    ensures index { result.index ≡ index }
    ensures taken { TakesStore (index_file_of index).number stores.old.items stores.new.items result.small }
{
    let number = index.number();
    let small = take_store(queue, number, stores);
    QueueSegment {
        queue,
        number,
        index,
        small,
    }
}

/// The last of these small stores, where it has this number; else a vacant one.
fn take_store(queue: u32, number: u64, stores: &mut Vec<SmallStore>) -> SmallStore
    requires { RiseAs (small_name queue) (stores_of stores.old.items) }
    ensures name { small_file_of result ≡ small_name queue number }
    ensures taken { TakesStore number stores.old.items stores.new.items result }
{
    match stores.pop() {
        Some(store) => {
            if store.number() == number {
                store
            } else {
                stores.push_reserved(store);
                SmallStore::vacant(queue, number)
            }
        }
        None => SmallStore::vacant(queue, number),
    }
}

/// Reads the present entries of each segment of a queue, and adds their messages.
fn find_all<D: Disk>(
    alloc: Global,
    disk: &mut D,
    queue: u32,
    list: &VecDeque<QueueSegment>,
    items: &mut Items,
) -> Result<(), QueueError>
    requires empty { items.old ≡ record { items = []; reserved = 0 } }
    requires rise { AreSegments queue list.now.items }
    requires at { D.tells → CanBeFound queue list.now.items (D.files disk.old) }
    ensures found { OnOk result (HasFound D.tells queue (D.files disk.old) list.now.items list.now.items items.new) }
    ensures damaged { IfErr result (λ error. IfDamaged error (CantFindAny D.tells list.now.items)) }
    ensures reads { D.tells → OnlyReads D.Disk disk.old disk.new }
    ensures ran { Ran D.Disk disk.old disk.new (IsErrOf result queue_fault) }
{
    for index in 0..list.len() {
        match find(alloc, disk, &list[index], items) {
            Ok(()) => {}
            Err(error) => return Err(error),
        }
    }
    Ok(())
}

/// Reads the present entries of a segment, and adds their messages behind the others.
fn find<D: Disk>(
    alloc: Global,
    disk: &mut D,
    segment: &QueueSegment,
    items: &mut Items,
) -> Result<(), QueueError>
    requires reserved { items.old.reserved ≡ 0 }
    requires decided { undecided_items items.old.items ≡ [] }
    requires knows { D.tells → KnowsFiles segment.now (D.files disk.old) }
    requires whole { D.tells → HasRecords segment.now.queue (D.files disk.old) segment.now.index }
    ensures found { OnOk result (FindsMore D.tells (D.files disk.old) segment.now items.old items.new) }
    ensures damaged { IfErr result (λ error. IfDamaged error (CantFind D.tells segment.now)) }
    ensures reads { D.tells → OnlyReads D.Disk disk.old disk.new }
    ensures ran { Ran D.Disk disk.old disk.new (IsErrOf result queue_fault) }
{
    match present_entries(alloc, disk, segment.queue, &segment.index) {
        Ok(entries) => add_all(segment, &entries, items),
        Err(error) => Err(in_index(segment.name(Kind::Index), error)),
    }
}

/// The error of a segment, of this file.
fn in_index(name: Name, error: SegmentError) -> QueueError
    ensures { result ≡ error_of name error }
{
    match error {
        SegmentError::Fault => QueueError::Fault,
        SegmentError::Memory => QueueError::Memory,
        SegmentError::Damaged { place, found } => QueueError::Damaged(name, place, found),
    }
}

/// Adds the messages of a segment's present entries behind the others.
fn add_all(segment: &QueueSegment, entries: &[Entry], items: &mut Items) -> Result<(), QueueError>
    requires same { length entries.now ≡ length (present_of segment.now) }
    requires valid { All IsEntry entries.now }
    requires reserved { items.old.reserved ≡ 0 }
    requires decided { undecided_items items.old.items ≡ [] }
    ensures found { OnOk result (items.new ≡ record {
      items = items.old.items
          ++ found_of (number_of segment.now) (present_of segment.now) entries.now;
      reserved = 0;
    }) }
    ensures within { OnOk result (All (LiesIn (small_len segment.now)) entries.now) }
    ensures damaged { IfErr result (λ error. IfDamaged error (IsOutsideAmong segment.now entries.now)) }
    ensures sound { IsErrOf result queue_fault → ⊥ }
{
    for index in 0..entries.len() {
        match add_one(
            segment,
            segment.index.present()[index],
            &entries[index],
            items,
        ) {
            Ok(()) => {}
            Err(error) => return Err(error),
        }
    }
    Ok(())
}

/// Adds the message of the entry at this place of a segment behind the others.
fn add_one(
    segment: &QueueSegment,
    at: u32,
    entry: &Entry,
    items: &mut Items,
) -> Result<(), QueueError>
    requires valid { IsEntry entry.now }
    requires decided { undecided_items items.old.items ≡ [] }
    ensures found { OnOk result (items.new ≡ record
        { items = items.old.items ++ found_of (number_of segment.now) (at ∷ []) (entry.now ∷ []); reserved = 0 }) }
    ensures within { OnOk result (LiesIn (small_len segment.now) entry.now) }
    ensures damaged { IfErr result (λ error. IfDamaged error (λ name place found.
        (name ≡ index_file segment.now) × IsOutside (small_len segment.now) at entry.now place found)) }
    ensures sound { IsErrOf result queue_fault → ⊥ }
{
    if !lies_in(entry, segment.small.len()) {
        let place = HEADER_LEN + (ENTRY_BYTES as u64) * at as u64 + PLACE_AT as u64;
        return Err(QueueError::Damaged(segment.name(Kind::Index), place, encode(entry)[PLACE_AT]));
    }
    items.reserve()?;
    let stand = Stand {
        segment: segment.number,
        at,
        place: entry.place,
    };
    items.restore(entry.id, entry.kind, entry.len, stand);
    Ok(())
}

/// Whether the record of a small message lies between the header and the end of a small store of this length.
fn lies_in(entry: &Entry, len: u64) -> bool
    ensures { (result ≡ true) ↔ LiesIn len entry.now }
{
    match entry.kind {
        EntryKind::Shared => true,
        EntryKind::Small => {
            HEADER_LEN <= entry.place
                && entry.place <= len
                && entry.len as u64 + 5 <= len - entry.place
        }
    }
}
