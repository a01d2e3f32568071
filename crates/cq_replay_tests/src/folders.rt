// Folders that are opened on the disk in memory.
use cq_back::{BackError, open_folder};
use cq_disk::{Kind, Name};
use cq_journal::Lines;
use cq_memdisk::{Crashable, MemDisk};
use std::alloc::{AllocError, Global};
use std::test::Fail;

const INDEX: Name = Name {
    kind: Kind::Index,
    queue: 0,
    number: 0,
};

const SMALL: Name = Name {
    kind: Kind::Small,
    queue: 0,
    number: 0,
};

/// Two entries: of a message `hello` with id 1 at 128, and of an empty one with id 2 at 138.
const ENTRIES: &[u8] =
    b"\x01\x01\x00\x00\x00\x00\x00\x05\x00\x00\x00\x00\x00\x00\x00\x00\x00\x00\x00\x00\x00\x00\x00\x01\x00\x00\x00\x00\x00\x00\x00\x80\x01\x01\x00\x00\x00\x00\x00\x00\x00\x00\x00\x00\x00\x00\x00\x00\x00\x00\x00\x00\x00\x00\x00\x02\x00\x00\x00\x00\x00\x00\x00\x8a";

const RECORDS: &[u8] = b"\x00\x00\x00\x05hello\xff\x00\x00\x00\x00\xff";

/// The header of a file of this kind, whose content ends at this place of the file.
fn header(kind: u8, end: u8) -> [u8; 128] {
    let mut bytes = [0; 128];
    bytes[..8].copy_from_slice(b"CQGATE01");
    bytes[8] = kind;
    bytes[9] = 1;
    bytes[39] = end;
    bytes[71] = end;
    bytes
}

/// A file of this kind, whose content ends at this place of the file.
fn file(alloc: Global, kind: u8, end: u8, content: &[u8]) -> Result<Vec<u8>, AllocError> {
    let header = header(kind, end);
    let mut bytes = header.to_vec(alloc)?;
    bytes.extend_from_slice(content)?;
    Ok(bytes)
}

/// Puts a short file there, synced.
fn put(disk: &mut MemDisk, name: Name, bytes: &[u8]) -> Result<(), AllocError> {
    if bytes.len() <= 4096 {
        disk.load(name, bytes)?;
    }
    Ok(())
}

/// Puts an index with these two entries there.
fn put_index(alloc: Global, disk: &mut MemDisk, entries: &[u8]) -> Result<(), AllocError> {
    let bytes = file(alloc, 1, 192, entries)?;
    put(disk, INDEX, &bytes)
}

/// Puts a small store with these two records there.
fn put_small(alloc: Global, disk: &mut MemDisk, records: &[u8]) -> Result<(), AllocError> {
    let bytes = file(alloc, 2, 143, records)?;
    put(disk, SMALL, &bytes)
}

/// A disk with these two files, synced.
fn folder(alloc: Global, entries: &[u8], records: &[u8]) -> Result<MemDisk, AllocError> {
    let mut disk = MemDisk::new(alloc, Vec::new(alloc));
    put_index(alloc, &mut disk, entries)?;
    put_small(alloc, &mut disk, records)?;
    Ok(disk)
}

/// Whether a folder opens to no message.
fn is_empty(alloc: Global, disk: &mut MemDisk) -> bool {
    match open_folder(alloc, disk) {
        Ok(found) => {
            found.segment.is_vacant() && found.held.is_empty() && found.lines.line(0).is_none()
        }
        Err(_) => false,
    }
}

#[test]
fn an_empty_folder_has_no_message(rt: HostRuntime) {
    let mut disk = MemDisk::new(rt.alloc(), Vec::new(rt.alloc()));
    assert!(rt; is_empty(rt.alloc(), &mut disk));
}

/// Whether these lines are the two messages, in order.
fn are_both(lines: &Lines) -> bool {
    lines.line(0) == Some((0, 1, b"hello".as_slice()))
        && lines.line(1) == Some((0, 2, b"".as_slice()))
        && lines.line(2).is_none()
}

/// Whether a folder opens to the two messages.
fn holds_both(alloc: Global, disk: &mut MemDisk) -> bool {
    match open_folder(alloc, disk) {
        Ok(found) => are_both(&found.lines) && found.held.len() == 2 && !found.segment.is_vacant(),
        Err(_) => false,
    }
}

/// Whether the opening is done where it makes so many device calls and then stops; and whether the image that a crash
/// leaves then opens to the two messages.
fn stopped(alloc: Global, calls: u64, image: u64) -> Result<(bool, bool), AllocError> {
    let mut disk = folder(alloc, ENTRIES, RECORDS)?;
    disk.fuse(calls);
    let done = holds_both(alloc, &mut disk);
    disk.crash(image)?;
    Ok((done, holds_both(alloc, &mut disk)))
}

#[test]
fn a_stop_of_an_opening_leaves_the_messages(rt: HostRuntime) -> Result<(), Fail> {
    for image in [0, 1, 2, 57, 257, 258] {
        for calls in 0..18 {
            let expected = (calls >= 16, true);
            assert!(rt;
                stopped(rt.alloc(), calls, image)? == expected,
                "{calls} calls, image {image}"
            );
        }
    }
    Ok(())
}

/// What an opening refuses.
fn refused(alloc: Global, disk: &mut MemDisk) -> Option<(Name, u64, u8)> {
    match open_folder(alloc, disk) {
        Err(BackError::Damaged { name, place, found }) => Some((name, place, found)),
        _ => None,
    }
}

/// These bytes, of which one is another.
fn changed(alloc: Global, bytes: &[u8], at: usize, byte: u8) -> Result<Vec<u8>, AllocError> {
    let mut bytes = bytes.to_vec(alloc)?;
    if let Some(changed) = bytes.get_mut(at) {
        *changed = byte;
    }
    Ok(bytes)
}

/// The folder of the two messages, of which one byte, of the entries or of the records, is another.
fn damaged(alloc: Global, in_index: bool, at: usize, byte: u8) -> Result<MemDisk, AllocError> {
    if in_index {
        folder(alloc, &changed(alloc, ENTRIES, at, byte)?, RECORDS)
    } else {
        folder(alloc, ENTRIES, &changed(alloc, RECORDS, at, byte)?)
    }
}

/// What the opening of that folder refuses.
fn told_of(
    alloc: Global,
    in_index: bool,
    at: usize,
    byte: u8,
) -> Result<Option<(Name, u64, u8)>, AllocError> {
    let mut disk = damaged(alloc, in_index, at, byte)?;
    Ok(refused(alloc, &mut disk))
}

/// Whether the byte is of the entries or of the records, its place, what it becomes, and what is told.
const DAMAGES: [(bool, usize, u8, (Name, u64, u8)); 6] = [
    (true, 1, 3, (INDEX, 129, 3)),
    (true, 1, 2, (INDEX, 152, 0)),
    (true, 55, 1, (INDEX, 168, 0)),
    (true, 31, 129, (INDEX, 152, 0)),
    (false, 9, 0, (INDEX, 152, 0)),
    (false, 3, 4, (INDEX, 152, 0)),
];

#[test]
fn the_first_bad_byte_is_told(rt: HostRuntime) -> Result<(), Fail> {
    for (in_index, at, byte, told) in DAMAGES {
        let found = told_of(rt.alloc(), in_index, at, byte)?;
        assert!(rt; found == Some(told));
    }
    Ok(())
}

/// Whether a folder opens to neither a segment nor a small store.
fn is_vacant(alloc: Global, disk: &mut MemDisk) -> bool {
    match open_folder(alloc, disk) {
        Ok(found) => found.segment.is_vacant() && found.small.is_vacant(),
        Err(_) => false,
    }
}

#[test]
fn a_small_store_without_an_index_goes(rt: HostRuntime) -> Result<(), Fail> {
    let mut disk = MemDisk::new(rt.alloc(), Vec::new(rt.alloc()));
    put_small(rt.alloc(), &mut disk, RECORDS)?;
    assert!(rt; is_vacant(rt.alloc(), &mut disk));
    assert!(rt; disk.bytes(SMALL).is_none());
    Ok(())
}
