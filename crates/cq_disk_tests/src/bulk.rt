// Entries that are read at once, and bodies that are read by windows, on the disk in memory.
ghost use Rattle.std.specs.Prelude.{◌≡◌, ◌≤◌, ℕ, None, IfOk};
ghost use Rattle.cq_index.specs.Places.{index_name};
ghost use Rattle.cq_small.specs.Store.{small_name, name_of, IsSmallStore};

use crate::segments::{FIRST, THIRD, three};
use cq_bulk::{Bodies, BodyError, present_entries};
use cq_bytes::Body;
use cq_disk::{Disk, Fault};
use cq_entry::Entry;
use cq_index::SegmentError;
use cq_memdisk::MemDisk;
use cq_small::{SmallBatch, SmallStore};
use std::alloc::Global;
use std::test::Fail;

/// The present entries of a segment of three, of which the second goes, read at once, and the calls that this takes.
fn left<D: Disk>(alloc: Global, disk: &mut D) -> Result<(Vec<Entry>, u64), SegmentError>
    requires { D.tells → D.files disk.old (index_name 0 0) ≡ None }
{
    let mut segment = three(alloc, disk)?;
    match segment.gone(disk, &[1]) {
        Ok(()) => {}
        Err(_) => return Err(SegmentError::Fault),
    }
    let start = disk.moment();
    let entries = present_entries(alloc, disk, 0, &segment)?;
    Ok((entries, disk.moment().saturating_sub(start)))
}

/// Whether these are the first and the third of three, read by one call.
fn are_left(alloc: Global) -> bool {
    let mut disk = MemDisk::new(alloc, Vec::new(alloc));
    match left(alloc, &mut disk) {
        Ok((entries, calls)) => entries.as_slice() == [FIRST, THIRD].as_slice() && calls == 1,
        Err(_) => false,
    }
}

#[test]
fn present_entries_are_read_at_once(rt: HostRuntime) -> Result<(), Fail> {
    assert!(rt; are_left(rt.alloc()));
    Ok(())
}

/// A store with the records of a batch.
fn stored<D: Disk>(disk: &mut D, batch: &SmallBatch) -> Result<SmallStore, Fault>
    requires { D.tells → D.files disk.old (small_name 0 0) ≡ None }
    ensures name { IfOk result (λ store. name_of store ≡ small_name 0 0) }
    ensures store { IfOk result (λ store. D.tells → IsSmallStore store (D.files disk.new (name_of store))) }
{
    if batch.bytes().len() > 1_000_000 {
        return Err(Fault);
    }
    let mut store = SmallStore::create(disk, 0, 0)?;
    store.add(disk, batch)?;
    Ok(store)
}

/// The most bytes of a body.
const MOST: u32 = 1_048_576;

/// The bodies at two places, one after another, and the calls that they take.
fn two<D: Disk>(
    alloc: Global,
    disk: &mut D,
    store: &SmallStore,
    first: (u64, u32),
    second: (u64, u32),
) -> Result<(Option<Body>, Option<Body>, u64), BodyError>
    requires name { name_of store.now ≡ small_name 0 0 }
    requires store { D.tells → IsSmallStore store.now (D.files disk.old (name_of store.now)) }
{
    if first.1 > MOST || second.1 > MOST {
        return Ok((None, None, 0));
    }
    let start = disk.moment();
    let mut bodies = Bodies::new(alloc);
    let one = bodies.body(alloc, disk, 0, store, first.0, first.1)?;
    let other = bodies.body(alloc, disk, 0, store, second.0, second.1)?;
    Ok((one, other, disk.moment().saturating_sub(start)))
}

/// Whether a body was found: `hello`, or the empty one.
fn is(body: &Option<Body>, found: bool) -> bool {
    match body {
        Some(body) => found && (body.bytes() == b"hello".as_slice() || body.bytes().is_empty()),
        None => !found,
    }
}

/// Whether two bodies of a store are found so, by so many calls.
fn are(alloc: Global, batch: &SmallBatch, row: Row) -> bool {
    let (first, second, found, calls) = row;
    let mut disk = MemDisk::new(alloc, Vec::new(alloc));
    let Ok(store) = stored(&mut disk, batch) else {
        return false;
    };
    match two(alloc, &mut disk, &store, first, second) {
        Ok((one, other, took)) => is(&one, found.0) && is(&other, found.1) && took == calls,
        Err(_) => false,
    }
}

/// Two places with lengths, which of their bodies are found, and by how many calls.
type Row = ((u64, u32), (u64, u32), (bool, bool), u64);

/// `hello` stands at 128, the empty one at 138, and the content ends at 143.
const ROWS: [Row; 6] = [
    ((128, 5), (138, 0), (true, true), 1),
    ((138, 0), (128, 5), (true, true), 2),
    ((128, 5), (128, 4), (true, false), 1),
    ((128, 5), (133, 0), (true, false), 1),
    ((127, 0), (139, 0), (false, false), 0),
    ((143, 0), (u64::MAX, 1_048_576), (false, false), 0),
];

#[test]
fn a_window_serves_what_lies_in_it(rt: HostRuntime) -> Result<(), Fail> {
    let alloc = rt.alloc();
    let mut batch = SmallBatch::new(alloc);
    batch.push(b"hello")?;
    batch.push(b"")?;
    for row in ROWS {
        assert!(rt; are(alloc, &batch, row));
    }
    Ok(())
}
