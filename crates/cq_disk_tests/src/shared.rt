// Shared files on the disk in memory: stops within an append, opened again; damaged files; and a disk that gives other
// bytes.
ghost use Rattle.std.specs.Prelude.{◌≡◌, None, IfOk};
ghost use Rattle.cq_disk.specs.Files.{IsThere};
ghost use Rattle.cq_rdq.specs.Records.{shared_name};
ghost use Rattle.cq_rdq.specs.Rdq.{name_of, IsRdq};

use cq_block::{Block, RecordBatch};
use cq_bytes::Body;
use cq_disk::{Disk, Fault, Kind, Name};
use cq_memdisk::{Altered, Crashable, MemDisk};
use cq_rdq::{Rdq, RdqError};
use std::alloc::Global;
use std::test::Fail;

/// The most bytes of a file here.
const MOST: usize = 1_000_000;

const NAME: Name = Name {
    kind: Kind::Shared,
    queue: 0,
    number: 0,
};

/// Where the records of a batch of `hi` and of an empty body stand, in a file that has no other.
const BOTH: [Block; 2] = [
    Block {
        at: 128,
        len: 27,
        id: 1,
    },
    Block {
        at: 155,
        len: 25,
        id: 2,
    },
];

/// Records of `hi` and of an empty body.
fn records(alloc: Global) -> Result<RecordBatch, Fail> {
    let mut batch = RecordBatch::new(alloc);
    batch.push(1, &Body::copy(alloc, b"hi")?)?;
    batch.push(2, &Body::copy(alloc, b"")?)?;
    Ok(batch)
}

/// A file with both: a call that makes it, and the seven of an append on a bare file.
fn both<D: Disk>(disk: &mut D, batch: &RecordBatch) -> Result<Rdq, Fault>
    requires { D.tells → D.files disk.old (shared_name 0) ≡ None }
    ensures rdq { IfOk result (λ rdq. D.tells → IsThere (D.files disk.new (name_of rdq)) (IsRdq rdq)) }
{
    if batch.bytes().len() > MOST {
        return Err(Fault);
    }
    let mut rdq = Rdq::create(disk, 0)?;
    rdq.add(disk, batch)?;
    Ok(rdq)
}

/// The records of a file with these bytes.
fn held(alloc: Global, bytes: &[u8]) -> Result<Vec<Block>, RdqError> {
    if bytes.len() > MOST {
        return Err(RdqError::Fault);
    }
    let mut disk = MemDisk::new(alloc, Vec::new(alloc));
    disk.load(NAME, bytes)?;
    let mut rdq = Rdq::open(alloc, &mut disk, 0)?;
    rdq.entries(alloc, &mut disk)
}

/// Whether a file with these bytes has none of the records, or both.
fn has(alloc: Global, bytes: &[u8], all: bool) -> bool {
    match held(alloc, bytes) {
        Ok(list) if all => list.as_slice() == BOTH.as_slice(),
        Ok(list) => list.is_empty(),
        Err(_) => false,
    }
}

/// Whether an append of both that stops after so many calls leaves neither record, or both.
fn stopped(alloc: Global, batch: &RecordBatch, calls: u64, image: u64) -> Result<bool, Fail> {
    let mut disk = MemDisk::new(alloc, Vec::new(alloc));
    disk.fuse(calls);
    let done = both(&mut disk, batch).is_ok();
    disk.crash(image)?;
    let bytes = disk.bytes(NAME).unwrap_or(&[]);
    let none = calls < 8 && has(alloc, bytes, false);
    let all = calls > 6 && has(alloc, bytes, true);
    Ok(done == (calls == 8) && (none || all))
}

#[test]
fn a_stop_leaves_no_record_or_all(rt: HostRuntime) -> Result<(), Fail> {
    let alloc = rt.alloc();
    let batch = records(alloc)?;
    for image in [0, 1, 2, 57, 257, 258, 259] {
        for calls in 1..9 {
            let fine = stopped(alloc, &batch, calls, image)?;
            assert_eq!(rt; (calls, image, fine), (calls, image, true));
        }
    }
    Ok(())
}

/// The bytes of the file of both.
fn written(alloc: Global) -> Result<Vec<u8>, Fail> {
    let batch = records(alloc)?;
    let mut disk = MemDisk::new(alloc, Vec::new(alloc));
    let _ = both(&mut disk, &batch);
    Ok(disk.bytes(NAME).unwrap_or(&[]).to_vec(alloc)?)
}

/// Three places of the file and the bytes that stand there then, and what is told: a place and its byte.
const DAMAGES: [([(usize, u8); 3], u64, u8); 8] = [
    // The header: the letters, the kind, the end past the file, a plan that isn't valid, and one that is.
    ([(7, 0x32), (8, 3), (71, 180)], 7, 0x32),
    ([(8, 2), (71, 181), (154, 0)], 8, 2),
    ([(71, 181), (154, 0), (179, 0)], 64, 0),
    ([(87, 25), (71, 155), (154, 0)], 72, 0),
    ([(87, 25), (71, 155), (79, 155)], 72, 0),
    // The chain: its first 24 bytes alone, the last byte of the first record, and that of the second.
    ([(71, 152), (154, 0), (179, 0)], 128, 0),
    ([(154, 0xfe), (179, 0), (71, 180)], 154, 0xfe),
    ([(179, 0xfe), (71, 180), (79, 0)], 179, 0xfe),
];

#[test]
fn the_first_wrong_byte_is_told(rt: HostRuntime) -> Result<(), Fail> {
    let alloc = rt.alloc();
    let bytes = written(alloc)?;
    assert_eq!(rt; bytes.len(), 180);
    for (others, place, found) in DAMAGES {
        let mut damaged = bytes.as_slice().to_vec(alloc)?;
        for (at, byte) in others {
            if let Some(changed) = damaged.get_mut(at) {
                *changed = byte;
            }
        }
        let told = RdqError::Damaged { place, found };
        assert_eq!(rt; (others, held(alloc, &damaged).err()), (others, Some(told)));
    }
    Ok(())
}

#[test]
fn a_bare_file_has_no_record(rt: HostRuntime) -> Result<(), Fail> {
    let alloc = rt.alloc();
    let bytes = [7; 129];
    for len in [0, 1, 128] {
        let list = held(alloc, bytes.get(..len).unwrap_or(&bytes));
        assert_eq!(rt; (len, list.map(|list| list.len())), (len, Ok(0)));
    }
    let told = RdqError::Damaged { place: 0, found: 7 };
    assert_eq!(rt; held(alloc, &bytes).err(), Some(told));
    Ok(())
}

/// A file to which a batch is added twice: its number, both places, its end, and the two bytes of the third record's body.
fn twice<D: Disk>(disk: &mut D, batch: &RecordBatch) -> Result<([u64; 4], [u8; 2]), Fault>
    requires { D.tells → D.files disk.old (shared_name 7) ≡ None }
{
    let len = batch.bytes().len();
    if len < 27 || len > MOST {
        return Err(Fault);
    }
    let mut rdq = Rdq::create(disk, 7)?;
    let first = rdq.add(disk, batch)?;
    let second = rdq.add(disk, batch)?;
    let mut body = [0; 2];
    rdq.read(disk, second + 24, &mut body)?;
    Ok(([rdq.number(), first, second, rdq.end()], body))
}

#[test]
fn a_batch_joins_behind_the_end(rt: HostRuntime) -> Result<(), Fail> {
    let alloc = rt.alloc();
    let batch = records(alloc)?;
    let mut disk = MemDisk::new(alloc, Vec::new(alloc));
    assert_eq!(rt; twice(&mut disk, &batch), Ok(([7, 128, 180, 232], *b"hi")));
    Ok(())
}

/// On a disk that tells nothing, and gives each byte of a shared file one higher: neither the header nor a record is of
/// the form.
#[test]
fn another_byte_is_told(rt: HostRuntime) -> Result<(), Fail> {
    let alloc = rt.alloc();
    let batch = records(alloc)?;
    let mut disk = Altered::new(MemDisk::new(alloc, Vec::new(alloc)));
    let listed = match both(&mut disk, &batch) {
        Ok(mut rdq) => rdq.entries(alloc, &mut disk).err(),
        Err(Fault) => None,
    };
    let record = RdqError::Damaged {
        place: 128,
        found: 1,
    };
    assert_eq!(rt; listed, Some(record));
    let opened = Rdq::open(alloc, &mut disk, 0).err();
    let header = RdqError::Damaged {
        place: 0,
        found: b'D',
    };
    assert_eq!(rt; opened, Some(header));
    Ok(())
}
