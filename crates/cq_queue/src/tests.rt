// Segments of a queue on the disk in memory.
ghost use Rattle.std.specs.Prelude.{◌≡◌, ◌<◌, ◌+◌, ◌^◌, ℕ, [], OnOk};
ghost use Rattle.cq_queue.specs.Lists.{AreAt, AreBelow};
ghost use Rattle.cq_queue.specs.Calls.{list_of, queue_of};

use crate::Segments;
use cq_disk::{Disk, Kind, Name};
use cq_entry::{Entry, EntryKind};
use cq_memdisk::MemDisk;
use cq_small::SmallBatch;
use std::alloc::Global;
use std::test::Fail;

const QUEUE: u32 = 7;

/// How many entries a segment gets at most.
const MOST: u32 = 16;

const BODY: &[u8] = b"a body";

/// What a test came upon doesn't fit.
#[derive(Debug, Drop)]
struct Unfit;

/// Adds a small message.
fn put<D: Disk>(segments: &mut Segments, disk: &mut D, alloc: Global, id: u128) -> Result<(), Fail>
    requires id { 0 < id }
    requires numbers { AreBelow (2 ^ 63) (list_of segments.old) }
    requires at { D.tells → AreAt (queue_of segments.old) (list_of segments.old) (D.files disk.old) }
    ensures numbers { OnOk result
        ((n : ℕ) → AreBelow n (list_of segments.old) → AreBelow (n + 1) (list_of segments.new)) }
    ensures at { OnOk result (D.tells → AreAt (queue_of segments.new) (list_of segments.new) (D.files disk.new)) }
{
    let segment = segments.take(alloc, 1)?;
    if segment.count() >= MOST {
        return Err(Fail::from(Unfit));
    }
    let place = segment.base();
    let mut records = SmallBatch::new(alloc);
    records.push(BODY)?;
    let entry = Entry {
        kind: EntryKind::Small,
        len: BODY.len() as u32,
        id,
        place,
    };
    segments.add(disk, segment, &records, &[entry])?;
    Ok(())
}

/// Adds a shared message, which has no record in the small store.
fn put_shared<D: Disk>(segments: &mut Segments, disk: &mut D, alloc: Global) -> Result<(), Fail>
    requires numbers { AreBelow (2 ^ 63) (list_of segments.old) }
    requires at { D.tells → AreAt (queue_of segments.old) (list_of segments.old) (D.files disk.old) }
{
    let segment = segments.take(alloc, 1)?;
    if segment.count() >= MOST {
        return Err(Fail::from(Unfit));
    }
    let entry = Entry {
        kind: EntryKind::Shared,
        len: 5000,
        id: 1,
        place: 0,
    };
    segments.add(disk, segment, &SmallBatch::new(alloc), &[entry])?;
    Ok(())
}

/// Marks all present entries of the first segment as gone, and removes it.
fn take_away<D: Disk>(segments: &mut Segments, disk: &mut D, alloc: Global) -> Result<(), Fail>
    requires at { D.tells → AreAt (queue_of segments.old) (list_of segments.old) (D.files disk.old) }
{
    let mut at = Vec::new(alloc);
    let Some(segment) = segments.list.front() else {
        return Err(Fail::from(Unfit));
    };
    at.extend_from_slice(segment.present())?;
    if at.is_empty() {
        return Err(Fail::from(Unfit));
    }
    segments.gone(disk, 0, &at)?;
    let Some(index) = segments.finished() else {
        return Err(Fail::from(Unfit));
    };
    segments.remove(disk, index)?;
    Ok(())
}

/// So many messages, each added by a commit of its own.
fn put_all<D: Disk>(
    segments: &mut Segments,
    disk: &mut D,
    alloc: Global,
    count: u32,
) -> Result<(), Fail>
    requires none { list_of segments.old ≡ [] }
    requires at { D.tells → AreAt (queue_of segments.old) [] (D.files disk.old) }
    ensures at { OnOk result (D.tells → AreAt (queue_of segments.new) (list_of segments.new) (D.files disk.new)) }
{
    for number in 0..count {
        put(segments, disk, alloc, number as u128 + 1)?;
    }
    Ok(())
}

/// Whether the disk has a file of the first segment.
fn has_file(disk: &MemDisk, kind: Kind) -> bool {
    let name = Name {
        kind,
        queue: QUEUE,
        number: 0,
    };
    disk.bytes(name).is_some()
}

#[test]
fn sixteen_messages_come_and_go(rt: HostRuntime) -> Result<(), Fail> {
    let alloc = rt.alloc();
    let mut disk = MemDisk::new(alloc, Vec::new(alloc));
    let mut segments = Segments::new(alloc, QUEUE, MOST);
    put_all(&mut segments, &mut disk, alloc, 16)?;
    // The first commit makes both files and writes their headers: sixteen calls; each later one has ten.
    assert_eq!(rt; disk.moment(), 166);
    assert_eq!(rt; segments.list.len(), 1);
    assert_eq!(rt; segments.finished(), None);
    assert!(rt; has_file(&disk, Kind::Index) && has_file(&disk, Kind::Small));
    take_away(&mut segments, &mut disk, alloc)?;
    // Sixteen statuses, a sync and two removals.
    assert_eq!(rt; disk.moment(), 185);
    assert_eq!(rt; segments.list.len(), 0);
    assert!(rt; !has_file(&disk, Kind::Index) && !has_file(&disk, Kind::Small));
    Ok(())
}

#[test]
fn a_hundred_messages_take_seven_segments(rt: HostRuntime) -> Result<(), Fail> {
    let alloc = rt.alloc();
    let mut disk = MemDisk::new(alloc, Vec::new(alloc));
    let mut segments = Segments::new(alloc, QUEUE, MOST);
    put_all(&mut segments, &mut disk, alloc, 100)?;
    assert_eq!(rt; segments.list.len(), 7);
    assert_eq!(rt; segments.place_of(6), Some(6));
    assert_eq!(rt; segments.place_of(7), None);
    Ok(())
}

#[test]
fn a_shared_message_makes_no_small_store(rt: HostRuntime) -> Result<(), Fail> {
    let alloc = rt.alloc();
    let mut disk = MemDisk::new(alloc, Vec::new(alloc));
    let mut segments = Segments::new(alloc, QUEUE, MOST);
    put_shared(&mut segments, &mut disk, alloc)?;
    assert_eq!(rt; disk.moment(), 8);
    assert!(rt; has_file(&disk, Kind::Index) && !has_file(&disk, Kind::Small));
    Ok(())
}
