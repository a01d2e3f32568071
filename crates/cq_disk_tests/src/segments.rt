// Indexes on the disk in memory: stops within each call, with each kind of image, opened again; and damaged files.
ghost use Rattle.std.specs.Prelude.{◌≡◌, ◌≢◌, ◌<◌, ◌≤◌, ◌^◌, ℕ, Contains, IsSome, None, Some, IfOk, OnOk, length};
ghost use Rattle.cq_disk.specs.declared.name.Kind.TheVariants.{Index};
ghost use Rattle.cq_index.specs.Places.{index_name};
ghost use Rattle.cq_index.specs.Segments.{name_of, count_of, present_of, IsSegment};

use cq_disk::{Disk, Kind, Name};
use cq_entry::{Entry, EntryKind};
use cq_index::{Segment, SegmentError};
use cq_memdisk::{Altered, Crashable, MemDisk};
use std::alloc::Global;
use std::test::Fail;

const NAME: Name = Name {
    kind: Kind::Index,
    queue: 0,
    number: 0,
};

pub(crate) const FIRST: Entry = Entry {
    kind: EntryKind::Small,
    len: 5,
    id: 1,
    place: 128,
};

const SECOND: Entry = Entry {
    kind: EntryKind::Shared,
    len: 1_048_576,
    id: u128::MAX,
    place: 0,
};

pub(crate) const THIRD: Entry = Entry {
    kind: EntryKind::Small,
    len: 0,
    id: 256,
    place: 138,
};

/// What is synced, what is read, four fills (1 is the status of a present entry), and masks.
const IMAGES: [u64; 8] = [0, 1, 2, 3, 57, 257, 258, 259];

/// A segment with three entries: a call that makes its file, and the seven of an append on a bare file.
pub(crate) fn three<D: Disk>(alloc: Global, disk: &mut D) -> Result<Segment, SegmentError>
    requires { D.tells → D.files disk.old (index_name 0 0) ≡ None }
    ensures name { IfOk result (λ s. name_of s ≡ index_name 0 0) }
    ensures count { IfOk result (λ s. count_of s ≡ 3) }
    ensures present { IfOk result (λ s. (k : ℕ) → k < 3 → Contains (present_of s) k) }
    ensures segment { IfOk result (λ s. D.tells → IsSegment s (D.files disk.new (name_of s))) }
{
    let mut segment = Segment::vacant(alloc, 0, 0);
    segment.reserve(3)?;
    if segment.create(disk).is_err() {
        return Err(SegmentError::Fault);
    }
    match segment.add(disk, &[FIRST, SECOND, THIRD]) {
        Ok(_) => Ok(segment),
        Err(_) => Err(SegmentError::Fault),
    }
}

/// The same, of which the first and the last go: two writes and a sync more.
fn one_left<D: Disk>(alloc: Global, disk: &mut D) -> Result<(), SegmentError>
    requires { D.tells → D.files disk.old (index_name 0 0) ≡ None }
{
    let mut segment = three(alloc, disk)?;
    match segment.gone(disk, &[0, 2]) {
        Ok(()) => Ok(()),
        Err(_) => Err(SegmentError::Fault),
    }
}

/// The entries of a segment of three.
fn entries<D: Disk>(segment: &mut Segment, disk: &mut D) -> Result<[Option<Entry>; 3], SegmentError>
    requires three { count_of segment.old ≡ 3 }
    requires segment { D.tells → IsSegment segment.old (D.files disk.old (name_of segment.old)) }
    ensures same { segment.new ≡ segment.old }
{
    let first = segment.entry(disk, 0)?;
    let second = segment.entry(disk, 1)?;
    let third = segment.entry(disk, 2)?;
    Ok([first, second, third])
}

/// The most bytes of a file here.
const MOST: usize = 1_000_000;

/// What a file with these bytes holds: its entries, where it has three.
fn held(alloc: Global, bytes: &[u8]) -> Result<Option<[Option<Entry>; 3]>, SegmentError> {
    if bytes.len() > MOST {
        return Err(SegmentError::Memory);
    }
    let mut disk = MemDisk::new(alloc, Vec::new(alloc));
    disk.load(NAME, bytes)?;
    let mut segment = Segment::open(alloc, &mut disk, 0, 0)?;
    if segment.count() != 3 {
        return Ok(None);
    }
    Ok(Some(entries(&mut segment, &mut disk)?))
}

/// Whether an image has what was written, not what was synced before, at a status that waits for a sync.
fn takes_writes(image: u64) -> bool {
    match image {
        0 => false,
        1 => true,
        2..=257 => image != 3,
        _ => (image - 258) % 2 == 1,
    }
}

/// Whether a stop after so many calls leaves the entries that didn't go, and those that went or are going by the image.
fn stopped(alloc: Global, calls: u64, image: u64) -> Result<bool, Fail> {
    let mut disk = MemDisk::new(alloc, Vec::new(alloc));
    disk.fuse(calls);
    let done = one_left(alloc, &mut disk).is_ok();
    disk.crash(image)?;
    let held = held(alloc, disk.bytes(NAME).unwrap_or(&[]));
    let gone = |from| done || (calls >= from && takes_writes(image));
    let left = Some([
        (!gone(9)).then_some(FIRST),
        Some(SECOND),
        (!gone(10)).then_some(THIRD),
    ]);
    let none = calls < 7 || (calls == 7 && held == Ok(None));
    Ok(done == (calls == 11) && held == Ok(if none { None } else { left }))
}

#[test]
fn a_stop_leaves_each_other_entry(rt: HostRuntime) -> Result<(), Fail> {
    let alloc = rt.alloc();
    for image in IMAGES {
        for calls in 1..12 {
            let fine = stopped(alloc, calls, image)?;
            assert_eq!(rt; (calls, image, fine), (calls, image, true));
        }
    }
    Ok(())
}

/// Puts another byte at a place.
fn put(bytes: &mut Vec<u8>, at: usize, byte: u8) {
    if let Some(changed) = bytes.get_mut(at) {
        *changed = byte;
    }
}

/// The bytes of the file of three entries.
fn written(alloc: Global) -> Result<Vec<u8>, Fail> {
    let mut disk = MemDisk::new(alloc, Vec::new(alloc));
    let _ = three(alloc, &mut disk);
    Ok(disk.bytes(NAME).unwrap_or(&[]).to_vec(alloc)?)
}

/// A byte of the file at which another stands, and the place and the byte that are told then.
const DAMAGES: [(usize, u8, u64, u8); 13] = [
    // The header: the eight letters, the kind, the end past the file, the end within an entry.
    (7, 0x32, 7, 0x32),
    (8, 2, 8, 2),
    (71, 0xe1, 64, 0),
    (71, 0xdf, 64, 0),
    // The first entry: kind, zeros, length, id.
    (129, 0, 129, 0),
    (129, 3, 129, 3),
    (130, 9, 130, 9),
    (131, 9, 130, 0),
    (133, 0x11, 132, 0),
    (151, 0, 136, 0),
    // The second and the third: the place of a shared one, the kind.
    (191, 1, 184, 0),
    (161, 255, 161, 255),
    (193, 4, 193, 4),
];

#[test]
fn the_first_wrong_byte_is_told(rt: HostRuntime) -> Result<(), Fail> {
    let alloc = rt.alloc();
    let all = [Some(FIRST), Some(SECOND), Some(THIRD)];
    let bytes = written(alloc)?;
    assert_eq!(rt; bytes.len(), 224);
    assert_eq!(rt; held(alloc, &bytes), Ok(Some(all)));
    for (at, byte, place, found) in DAMAGES {
        let mut damaged = bytes.as_slice().to_vec(alloc)?;
        put(&mut damaged, at, byte);
        let told = SegmentError::Damaged { place, found };
        assert_eq!(rt; (at, byte, held(alloc, &damaged)), (at, byte, Err(told)));
    }
    Ok(())
}

#[test]
fn every_other_status_is_gone(rt: HostRuntime) -> Result<(), Fail> {
    let alloc = rt.alloc();
    for status in [0, 2, 255] {
        let mut bytes = written(alloc)?;
        // The other bytes of an entry that is gone may be anything.
        put(&mut bytes, 160, status);
        put(&mut bytes, 161, 7);
        put(&mut bytes, 191, 7);
        let left = [Some(FIRST), None, Some(THIRD)];
        assert_eq!(rt; (status, held(alloc, &bytes)), (status, Ok(Some(left))));
    }
    Ok(())
}

/// How many entries a file with these bytes has.
fn count_in(alloc: Global, bytes: &[u8]) -> Result<u32, SegmentError> {
    if bytes.len() > MOST {
        return Err(SegmentError::Memory);
    }
    let mut disk = MemDisk::new(alloc, Vec::new(alloc));
    disk.load(NAME, bytes)?;
    Ok(Segment::open(alloc, &mut disk, 0, 0)?.count())
}

#[test]
fn a_segment_has_at_most_4096_entries(rt: HostRuntime) -> Result<(), Fail> {
    let alloc = rt.alloc();
    let slot = SegmentError::Damaged {
        place: 64,
        found: 0,
    };
    // The length of a content of zeros, and the last three bytes of its end in the slot.
    for (len, end, told) in [
        (0, [0, 0, 128], Ok(0)),
        (32, [0, 0, 160], Ok(1)),
        (33, [0, 0, 161], Err(slot)),
        (131_072, [2, 0, 128], Ok(4096)),
        (131_104, [2, 0, 160], Err(slot)),
    ] {
        let mut bytes = written(alloc)?;
        bytes.truncate(128);
        bytes.resize(128 + len, 0)?;
        put(&mut bytes, 69, end[0]);
        put(&mut bytes, 70, end[1]);
        put(&mut bytes, 71, end[2]);
        assert_eq!(rt; (len, count_in(alloc, &bytes)), (len, told));
    }
    Ok(())
}

/// On a disk that tells nothing: a second value over the file, whose entries went meanwhile.
fn stale(alloc: Global) -> Result<[Option<Entry>; 3], SegmentError> {
    let mut disk = Altered::new(MemDisk::new(alloc, Vec::new(alloc)));
    let mut first = three(alloc, &mut disk)?;
    let mut second = Segment::open(alloc, &mut disk, 0, 0)?;
    if second.count() != 3 {
        return Err(SegmentError::Fault);
    }
    let before = entries(&mut second, &mut disk)?;
    if before != [Some(FIRST), Some(SECOND), Some(THIRD)] {
        return Ok(before);
    }
    if first.gone(&mut disk, &[2]).is_err() {
        return Err(SegmentError::Fault);
    }
    entries(&mut second, &mut disk)
}

#[test]
fn an_entry_that_went_is_damaged(rt: HostRuntime) {
    let alloc = rt.alloc();
    let status = SegmentError::Damaged {
        place: 192,
        found: 0,
    };
    assert_eq!(rt; stale(alloc), Err(status));
}
