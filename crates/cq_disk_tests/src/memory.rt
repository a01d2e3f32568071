// The disk in memory, used through its trait.
ghost use Rattle.std.specs.Prelude.{◌≡◌, None, OnOk, [], ◌∷◌};
ghost use Rattle.cq_disk.specs.File.{settled};
ghost use Rattle.cq_disk.specs.declared.name.Kind.TheVariants.{Small};
ghost use Rattle.cq_disk.specs.Files.{Among};

use cq_disk::{Disk, DiskError, Fault, Kind, Name};
use cq_memdisk::{Altered, Crashable, MemDisk};
use std::alloc::{AllocError, Global};
use std::test::Fail;

const NAME: Name = Name {
    kind: Kind::Small,
    queue: 0,
    number: 0,
};

const OTHER: Name = Name {
    kind: Kind::Index,
    queue: 7,
    number: 1,
};

/// Makes a file with the bytes 1, 2, 9, 8, by a write over a part of what was there and past its end.
fn put<D: Disk>(disk: &mut D, name: Name) -> Result<(), Fault>
    requires { D.tells → D.files disk.old name ≡ None }
    ensures { OnOk result (D.tells → Among (D.files disk.new name) (λ f. f ≡ settled (1 ∷ 2 ∷ 9 ∷ 8 ∷ []))) }
{
    disk.create(name)?;
    disk.write(name, 0, &[1, 2, 3])?;
    disk.write(name, 2, &[9, 8])?;
    disk.sync(name)
}

/// The moment, and the counts of faults and of refused calls.
fn told(disk: &MemDisk) -> (u64, u64, u64) {
    (disk.moment(), disk.faults(), disk.refused())
}

/// The lengths that the two files have, in two calls.
fn lengths(disk: &mut MemDisk) -> (Result<Option<u64>, Fault>, Result<Option<u64>, Fault>) {
    (disk.len(NAME), disk.len(OTHER))
}

/// A file that is written, read in part and cut to one byte; and whether the three bytes 2, 9, 8 were read.
fn written(alloc: Global) -> Result<(MemDisk, bool), Fault> {
    let mut disk = MemDisk::new(alloc, Vec::new(alloc));
    put(&mut disk, NAME)?;
    let mut got = [0; 3];
    disk.read(NAME, 1, &mut got)?;
    disk.cut(NAME, 1)?;
    Ok((disk, got == [2, 9, 8]))
}

#[test]
fn what_is_written_is_read(rt: HostRuntime) {
    match written(rt.alloc()) {
        Ok((mut disk, is_read)) => {
            assert!(rt; is_read);
            assert!(rt; disk.bytes(NAME) == Some([1].as_slice()) && disk.bytes(OTHER).is_none());
            assert!(rt; lengths(&mut disk) == (Ok(Some(1)), Ok(None)));
            assert!(rt; told(&disk) == (8, 0, 0));
        }
        Err(Fault) => assert!(rt; false, "a call failed"),
    }
}

/// Whether a listing gave these names.
fn are(listed: Result<Vec<Name>, DiskError>, expected: &[Name]) -> bool {
    match listed {
        Ok(names) => names.as_slice() == expected,
        Err(_) => false,
    }
}

#[test]
fn names_are_listed_in_order(rt: HostRuntime) {
    let alloc = rt.alloc();
    let mut disk = MemDisk::new(alloc, Vec::new(alloc));
    assert!(rt; disk.create(NAME).is_ok());
    assert!(rt; disk.create(OTHER).is_ok());
    let names = disk.list(alloc);
    assert!(rt; disk.remove(OTHER).is_ok());
    assert!(rt; are(names, &[OTHER, NAME]) && disk.len(OTHER) == Ok(None));
}

#[test]
fn a_planned_call_fails(rt: HostRuntime) -> Result<(), Fail> {
    let alloc = rt.alloc();
    let mut disk = MemDisk::new(alloc, vec![in alloc; 1]?);
    let outcomes = (disk.len(NAME), disk.create(NAME), disk.len(NAME));
    assert!(rt; outcomes == (Ok(None), Err(Fault), Ok(None)));
    assert!(rt; disk.faults() == 1 && disk.refused() == 0);
    Ok(())
}

/// An index with the synced bytes 5 6, of which 5 was written over with 9; and a small store with the synced bytes
/// 1 2 3 4, of which 2 was written over with 9, then cut to 3 bytes and written to 5.
fn pending(alloc: Global) -> Result<MemDisk, Fail> {
    let mut disk = MemDisk::new(alloc, Vec::new(alloc));
    disk.load(OTHER, &[5, 6])?;
    disk.load(NAME, &[1, 2, 3, 4])?;
    let _ = disk.write(OTHER, 0, &[9]);
    let _ = disk.write(NAME, 1, &[9]);
    if disk.cut(NAME, 3).is_ok() {
        let _ = disk.write(NAME, 3, &[7, 8]);
    }
    Ok(disk)
}

/// Images by their number, as the index and the small store read then.
const IMAGES: [(u64, &[u8], &[u8]); 13] = [
    (0, &[5, 6], &[1, 2, 3, 4]),
    (1, &[9, 6], &[1, 9, 3, 7, 8]),
    (2, &[0, 6], &[1, 0, 3, 0, 0]),
    (57, &[55, 6], &[1, 55, 3, 55, 55]),
    (257, &[255, 6], &[1, 255, 3, 255, 255]),
    (258, &[5, 6], &[1, 2, 3, 4]),
    (259, &[9, 6], &[1, 2, 3, 4]),
    (260, &[5, 6], &[1, 9, 3, 7, 8]),
    (261, &[9, 6], &[1, 9, 3, 7, 8]),
    (262, &[5, 6], &[1, 2, 3, 4]),
    (258 + (1 << 32), &[5, 6], &[1, 2, 3, 4]),
    (259 + (1 << 32), &[9, 6], &[1, 2, 3, 4]),
    (u64::MAX, &[9, 6], &[1, 2, 3, 4]),
];

/// Whether the index and the small store read so.
fn holds(disk: &MemDisk, index: &[u8], small: &[u8]) -> bool {
    disk.bytes(OTHER) == Some(index) && disk.bytes(NAME) == Some(small)
}

/// Whether a crash leaves this of both files, so that nothing waits afterwards, and no count changes.
fn leaves(mut disk: MemDisk, n: u64, index: &[u8], small: &[u8]) -> Result<bool, AllocError> {
    let before = told(&disk);
    disk.crash(n)?;
    let is_image = holds(&disk, index, small);
    disk.crash(1)?;
    Ok(is_image && holds(&disk, index, small) && before == (4, 0, 0) && told(&disk) == before)
}

#[test]
fn a_crash_leaves_its_image(rt: HostRuntime) -> Result<(), Fail> {
    let alloc = rt.alloc();
    for (n, index, small) in IMAGES {
        assert!(rt; leaves(pending(alloc)?, n, index, small)?, "image {n}");
    }
    Ok(())
}

/// What three calls give.
fn three_lengths(disk: &mut MemDisk) -> [Result<Option<u64>, Fault>; 3] {
    [disk.len(OTHER), disk.len(OTHER), disk.len(OTHER)]
}

#[test]
fn past_the_fuse_each_call_fails(rt: HostRuntime) -> Result<(), Fail> {
    let alloc = rt.alloc();
    let mut disk = MemDisk::new(alloc, Vec::new(alloc));
    disk.load(OTHER, &[5, 6])?;
    assert!(rt; disk.moment() == 0);
    disk.fuse(1);
    assert!(rt; three_lengths(&mut disk) == [Ok(Some(2)), Err(Fault), Err(Fault)]);
    assert!(rt; disk.faults() == 2);
    disk.crash(0)?;
    assert!(rt; disk.len(OTHER) == Ok(Some(2)) && told(&disk) == (4, 2, 0));
    assert!(rt; disk.bytes(OTHER) == Some([5, 6].as_slice()));
    Ok(())
}

/// Whether a file reads so from its start, while a read past its end and another making of it fail.
fn gives(disk: &mut Altered, name: Name, expected: [u8; 2]) -> bool {
    let mut got = [9; 2];
    let is_read = disk.read(name, 0, &mut got).is_ok() && got == expected;
    is_read && disk.read(name, 1, &mut got).is_err() && disk.create(name).is_err()
}

#[test]
fn an_altered_disk_gives_other_bytes(rt: HostRuntime) -> Result<(), Fail> {
    let alloc = rt.alloc();
    let mut inner = MemDisk::new(alloc, Vec::new(alloc));
    inner.load(NAME, &[0, 255])?;
    inner.load(OTHER, &[0, 255])?;
    let mut disk = Altered::new(inner);
    assert!(rt; gives(&mut disk, NAME, [1, 0]) && gives(&mut disk, OTHER, [0, 255]));
    assert!(rt; disk.moment() == 6 && disk.faults() == 4);
    Ok(())
}

/// Which of these are done: making a file, a write past its end, and one at its start.
fn writes(disk: &mut Altered) -> [bool; 3] {
    let made = disk.create(NAME).is_ok();
    let past_end = disk.write(NAME, 1, &[7]).is_ok();
    [made, past_end, disk.write(NAME, 0, &[7, 8]).is_ok()]
}

/// Which of these are done: a cut to three bytes, one to a byte, and the sync of a file that isn't there and of this one.
fn cuts(disk: &mut Altered) -> [bool; 4] {
    let longer = disk.cut(NAME, 3).is_ok();
    let shorter = disk.cut(NAME, 1).is_ok();
    let other = disk.sync(OTHER).is_ok();
    [longer, shorter, other, disk.sync(NAME).is_ok()]
}

/// How a removal goes, and what the length is after it, in two calls.
fn removal(disk: &mut Altered) -> (Result<(), Fault>, [Result<Option<u64>, Fault>; 2]) {
    (disk.remove(NAME), [disk.len(NAME), disk.len(NAME)])
}

#[test]
fn an_altered_disk_passes_calls_on(rt: HostRuntime) -> Result<(), Fail> {
    let alloc = rt.alloc();
    let mut disk = Altered::new(MemDisk::new(alloc, vec![in alloc; 8]?));
    assert!(rt; writes(&mut disk) == [true, false, true]);
    assert!(rt; cuts(&mut disk) == [false, true, false, true]);
    assert!(rt; disk.len(NAME) == Ok(Some(1)) && are(disk.list(alloc), &[NAME]));
    // Before the last of these calls the disk within was called eight times, and then it fails.
    assert!(rt; removal(&mut disk) == (Ok(()), [Ok(None), Err(Fault)]));
    assert!(rt; disk.moment() == 12 && disk.faults() == 4);
    Ok(())
}
