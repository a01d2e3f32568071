// Small stores on the disk in memory: stops within an append, opened again, and a disk that gives other bytes.
ghost use Rattle.std.specs.Prelude.{◌≡◌, ◌<◌, ◌≤◌, ◌+◌, ◌^◌, None, IfOk, length};
ghost use Rattle.cq_small.specs.Store.{small_name, name_of, IsSmallStore};

use cq_disk::{Disk, Fault, Kind, Name};
use cq_gate::GateError;
use cq_memdisk::{Altered, Crashable, MemDisk};
use cq_small::{SmallBatch, SmallStore};
use std::alloc::Global;
use std::test::Fail;

/// The most bytes of a file here.
const MOST: usize = 1_000_000;

const NAME: Name = Name {
    kind: Kind::Small,
    queue: 0,
    number: 0,
};

/// Records of `hello` and of an empty body.
fn bodies(alloc: Global) -> Result<SmallBatch, Fail> {
    let mut batch = SmallBatch::new(alloc);
    batch.push(b"hello")?;
    batch.push(b"")?;
    Ok(batch)
}

/// A store with both: a call that makes its file, and the seven of an append on a bare file.
fn both<D: Disk>(disk: &mut D, batch: &SmallBatch) -> Result<(), Fault>
    requires { D.tells → D.files disk.old (small_name 0 0) ≡ None }
{
    if batch.bytes().len() > MOST {
        return Err(Fault);
    }
    let mut store = SmallStore::create(disk, 0, 0)?;
    store.add(disk, batch)?;
    Ok(())
}

/// The body that stands at a place, where one of this length does.
fn body<D: Disk, const N: usize>(
    store: &mut SmallStore,
    disk: &mut D,
    place: u64,
) -> Result<Option<[u8; N]>, Fault>
    requires small { N < 256 }
    requires low { place < 256 }
    requires store { D.tells → IsSmallStore store.old (D.files disk.old (name_of store.old)) }
{
    if !store.whole(disk, place, N as u32)? || place + N as u64 + 5 > store.len() {
        return Ok(None);
    }
    let mut into = [0; N];
    store.read(disk, place, &mut into)?;
    Ok(Some(into))
}

/// The body of this length that stands at a place of a file with these bytes.
fn held<const N: usize>(alloc: Global, bytes: &[u8], place: u64) -> Result<Option<[u8; N]>, Fail>
    requires small { N < 256 }
    requires low { place < 256 }
{
    if bytes.len() > MOST {
        return Ok(None);
    }
    let mut disk = MemDisk::new(alloc, Vec::new(alloc));
    disk.load(NAME, bytes)?;
    let Ok(mut store) = SmallStore::open(&mut disk, 0, 0) else {
        return Ok(None);
    };
    Ok(body(&mut store, &mut disk, place).unwrap_or(None))
}

/// Whether an append of both that stops after so many calls leaves neither record, or both.
fn stopped(alloc: Global, batch: &SmallBatch, calls: u64, image: u64) -> Result<bool, Fail> {
    let mut disk = MemDisk::new(alloc, Vec::new(alloc));
    disk.fuse(calls);
    let done = both(&mut disk, batch).is_ok();
    disk.crash(image)?;
    let bytes = disk.bytes(NAME).unwrap_or(&[]);
    let first = held::<5>(alloc, bytes, 128)?;
    let second = held::<0>(alloc, bytes, 138)?;
    let all = calls > 7 || (calls == 7 && first.is_some());
    Ok(done == (calls == 8) && first == all.then_some(*b"hello") && second == all.then_some([]))
}

#[test]
fn a_stop_leaves_no_record_or_all(rt: HostRuntime) -> Result<(), Fail> {
    let alloc = rt.alloc();
    let batch = bodies(alloc)?;
    assert_eq!(rt; batch.bytes().len(), 15);
    for image in [0, 1, 2, 57, 257, 258, 259] {
        for calls in 1..9 {
            let fine = stopped(alloc, &batch, calls, image)?;
            assert_eq!(rt; (calls, image, fine), (calls, image, true));
        }
    }
    Ok(())
}

/// On a disk that tells nothing, and gives each byte of a small store one higher: the header isn't of the form.
#[test]
fn another_byte_is_told(rt: HostRuntime) -> Result<(), Fail> {
    let alloc = rt.alloc();
    let batch = bodies(alloc)?;
    let mut disk = Altered::new(MemDisk::new(alloc, Vec::new(alloc)));
    assert!(rt; both(&mut disk, &batch).is_ok());
    let opened = SmallStore::open(&mut disk, 0, 0).err();
    let first = GateError::Damaged {
        place: 0,
        found: b'D',
    };
    assert_eq!(rt; opened, Some(first));
    Ok(())
}
