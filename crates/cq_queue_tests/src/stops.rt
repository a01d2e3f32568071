// A queue's settlings and removals that stop, opened again; and damaged entries.
ghost use Rattle.std.specs.Prelude.{◌≡◌, None, IfOk};
ghost use Rattle.cq_disk.specs.declared.name.Name.{Name};
ghost use Rattle.cq_back_q.specs.Found.{IsFoundOf};

use crate::cores::{BODY, LENGTH, QUEUE, filled, get_all, name};
use cq_back_q::{FoundQueue, open_queue};
use cq_bytes::Body;
use cq_disk::{Disk, Kind, Name};
use cq_memdisk::{Altered, Crashable, MemDisk};
use cq_queue::{QueueCore, QueueError};
use std::alloc::{AllocError, Global};
use std::test::Fail;

/// The most bytes of a file here.
const MOST: usize = 1_000_000;

/// What is synced, what is read, three fills (1 is the status of a present entry), and four masks.
const IMAGES: [u64; 9] = [0, 1, 2, 3, 57, 258, 259, 260, 261];

/// Each byte one lower, 0 as 255.
fn lower(bytes: &mut [u8]) {
    for byte in bytes.iter_mut() {
        *byte = byte.wrapping_sub(1);
    }
}

/// Loads a file, where it is there.
fn load(alloc: Global, into: &mut MemDisk, from: &MemDisk, name: Name) -> Result<(), AllocError> {
    let Some(bytes) = from.bytes(name) else {
        return Ok(());
    };
    let mut bytes = bytes.to_vec(alloc)?;
    if name.kind != Kind::Index {
        lower(&mut bytes);
    }
    if bytes.len() > MOST {
        return Ok(());
    }
    into.load(name, &bytes)
}

/// A disk that tells nothing, and whose first two segments read as on this one: it gives each byte of a small store one
/// higher, and they are loaded one lower.
fn untold(alloc: Global, disk: &MemDisk) -> Result<Altered, AllocError> {
    let mut within = MemDisk::new(alloc, Vec::new(alloc));
    for number in 0..2 {
        load(alloc, &mut within, disk, name(Kind::Index, number))?;
        load(alloc, &mut within, disk, name(Kind::Small, number))?;
    }
    Ok(Altered::new(within))
}

/// What the files of the queue hold.
fn found(alloc: Global, disk: &mut Altered) -> Result<FoundQueue, Fail>
    ensures { IfOk result (λ found. IsFoundOf 0 found) }
{
    let names = disk.list(alloc)?;
    match open_queue(alloc, disk, QUEUE, &names) {
        Ok(found) => Ok(found),
        Err(error) => Err(error.into()),
    }
}

/// The queue of these files.
fn open(alloc: Global, disk: &mut Altered, found: FoundQueue) -> Result<QueueCore, QueueError>
    requires { IsFoundOf 0 found }
{
    QueueCore::open(alloc, disk, QUEUE, found.segments, found.stores, LENGTH)
}

/// Whether each of these was read as it was written.
fn are_whole(bodies: &[Option<Body>]) -> bool {
    for body in bodies {
        match body {
            Some(body) if body.bytes() == BODY.as_slice() => {}
            _ => return false,
        }
    }
    true
}

/// The ids of the messages that the files of a disk hold, in order; none where a body isn't as it was written.
fn held(alloc: Global, disk: &MemDisk) -> Result<Vec<u128>, Fail> {
    let mut disk = untold(alloc, disk)?;
    let found = found(alloc, &mut disk)?;
    let mut ids = Vec::new(alloc);
    if !are_whole(&found.bodies) {
        return Ok(ids);
    }
    let core = open(alloc, &mut disk, found)?;
    for at in 0..100 {
        let Some((_, _, entry)) = core.fresh(at) else {
            return Ok(ids);
        };
        ids.push(entry.id)?;
    }
    Ok(ids)
}

/// Whether an image has what was written, not what was synced before, at a status that waits for a sync.
fn takes_writes(image: u64) -> bool {
    match image {
        0 => false,
        1 => true,
        2..=257 => image != 3,
        _ => (image - 258) % 2 == 1,
    }
}

/// Whether these are held: 2, and 1 and 3 where they aren't gone.
fn are_left(ids: &[u128], first_gone: bool, third_gone: bool) -> bool {
    match (first_gone, third_gone) {
        (false, false) => ids == [1, 2, 3].as_slice(),
        (true, false) => ids == [2, 3].as_slice(),
        (false, true) => ids == [1, 2].as_slice(),
        (true, true) => ids == [2].as_slice(),
    }
}

/// Settles the first and the third of three messages: whether that was done.
fn settles<D: Disk>(alloc: Global, disk: &mut D) -> Result<bool, QueueError>
    requires { D.tells → (n : Name) → D.files disk.old n ≡ None }
{
    let mut core = filled(alloc, disk, 3, 1)?;
    if !get_all(&mut core, 3, 1) {
        return Err(QueueError::Fault);
    }
    Ok(core.settle(disk).is_ok())
}

/// Whether a settling that stops after so many calls leaves the second message, and those that are going by the image.
fn settling_stopped(alloc: Global, calls: u64, image: u64) -> Result<bool, Fail> {
    let mut disk = MemDisk::new(alloc, Vec::new(alloc));
    disk.fuse(calls.saturating_add(16));
    let done = settles(alloc, &mut disk)?;
    disk.crash(image)?;
    let ids = held(alloc, &disk)?;
    let gone = |from| done || (calls >= from && takes_writes(image));
    Ok(done == (calls == 3) && are_left(&ids, gone(1), gone(2)))
}

/// Settles the first sixteen of seventeen messages, and removes their segment: whether that was done.
fn removes<D: Disk>(alloc: Global, disk: &mut D) -> Result<bool, QueueError>
    requires { D.tells → (n : Name) → D.files disk.old n ≡ None }
{
    let mut core = filled(alloc, disk, 17, 2)?;
    if !get_all(&mut core, 16, 16) {
        return Err(QueueError::Fault);
    }
    let ids = core.settle(disk)?;
    Ok(core.remove_segment(disk) == Ok(true) && ids.len() == 16)
}

/// Whether a removal that stops after so many calls leaves the message of the next segment, and the files by their order.
fn removal_stopped(alloc: Global, calls: u64, image: u64) -> Result<bool, Fail> {
    let mut disk = MemDisk::new(alloc, Vec::new(alloc));
    disk.fuse(calls.saturating_add(49));
    let done = removes(alloc, &mut disk)?;
    disk.crash(image)?;
    let ids = held(alloc, &disk)?;
    let index = disk.bytes(name(Kind::Index, 0)).is_some();
    let small = disk.bytes(name(Kind::Small, 0)).is_some();
    Ok(
        done == (calls == 2)
            && index == (calls < 1)
            && small == (calls < 2)
            && ids.as_slice() == [17].as_slice(),
    )
}

#[test]
fn a_stop_leaves_what_stands(rt: HostRuntime) -> Result<(), Fail> {
    let alloc = rt.alloc();
    for image in IMAGES {
        for calls in 0..4 {
            assert!(rt; settling_stopped(alloc, calls, image)?);
        }
        for calls in 0..3 {
            assert!(rt; removal_stopped(alloc, calls, image)?);
        }
    }
    Ok(())
}

/// What an opening answers where a byte of the first index changed since it was read, and the calls and the faults that it
/// took.
fn opened(
    alloc: Global,
    disk: &MemDisk,
    at: u64,
    byte: u8,
) -> Result<(Option<QueueError>, u64, u64), Fail> {
    let mut disk = untold(alloc, disk)?;
    let found = found(alloc, &mut disk)?;
    disk.write(name(Kind::Index, 0), at, &[byte])?;
    let (moment, faults) = (disk.moment(), disk.faults());
    let error = open(alloc, &mut disk, found).err();
    let calls = disk.moment().saturating_sub(moment);
    Ok((error, calls, disk.faults().saturating_sub(faults)))
}

/// A byte of the second of three entries at which another stands, and the place and the byte that are told then. Its record
/// stands at 135, and the small store has 149 bytes.
const DAMAGES: [(u64, u8, Option<(u64, u8)>); 12] = [
    // The status, the kind, the zeros, the length, the id.
    (160, 0, Some((160, 0))),
    (161, 0, Some((161, 0))),
    (161, 3, Some((161, 3))),
    (162, 7, Some((162, 7))),
    (163, 9, Some((162, 0))),
    (164, 1, Some((164, 1))),
    (183, 0, Some((168, 0))),
    // The place: before the content, one that is high enough, one byte higher, and far out.
    (191, 127, Some((184, 0))),
    (191, 142, None),
    (191, 143, Some((184, 0))),
    (184, 1, Some((184, 1))),
    // The file is as before.
    (160, 1, None),
];

/// Whether a damage is told so, by one read of the index.
fn is_told(
    alloc: Global,
    disk: &MemDisk,
    damage: (u64, u8, Option<(u64, u8)>),
) -> Result<bool, Fail> {
    let (error, calls, faults) = opened(alloc, disk, damage.0, damage.1)?;
    let expected = match damage.2 {
        Some((place, found)) => Some(QueueError::Damaged(name(Kind::Index, 0), place, found)),
        None => None,
    };
    Ok(error == expected && calls == 1 && faults == 0)
}

#[test]
fn a_damaged_entry_is_told(rt: HostRuntime) -> Result<(), Fail> {
    let alloc = rt.alloc();
    let mut disk = MemDisk::new(alloc, Vec::new(alloc));
    filled(alloc, &mut disk, 3, 1)?;
    for damage in DAMAGES {
        assert!(rt; is_told(alloc, &disk, damage)?);
    }
    Ok(())
}
