// An append that stops after each of its calls, with each kind of image, opened again.
ghost use Rattle.std.specs.Prelude.{◌≡◌, ◌<◌, ◌^◌, None, length};
ghost use Rattle.cq_disk.specs.declared.name.Kind.TheVariants.{Small};

use cq_disk::{Disk, Fault, Kind, Name};
use cq_gate::Gate;
use cq_memdisk::{Crashable, MemDisk};
use std::alloc::Global;
use std::test::Fail;

const NAME: Name = Name {
    kind: Kind::Small,
    queue: 0,
    number: 0,
};

const FIRST: &[u8] = b"first";

const BOTH: &[u8] = b"first, then";

/// What is synced, what is read, three fills, and masks.
const IMAGES: [u64; 13] = [0, 1, 2, 57, 257, 258, 259, 260, 261, 262, 263, 264, 265];

/// A file with the first bytes: a call that makes it, and the seven of an append on a bare file.
fn one<D: Disk>(disk: &mut D) -> Result<(), Fault>
    requires { D.tells → D.files disk.old (record { kind = Small; queue = 0; number = 0 }) ≡ None }
{
    let mut gate = Gate::create(disk, NAME)?;
    gate.append(disk, FIRST)?;
    Ok(())
}

/// A file with both: the same, and the five calls of an append on a longer file.
fn two<D: Disk>(disk: &mut D) -> Result<(), Fault>
    requires { D.tells → D.files disk.old (record { kind = Small; queue = 0; number = 0 }) ≡ None }
{
    let mut gate = Gate::create(disk, NAME)?;
    gate.append(disk, FIRST)?;
    gate.append(disk, b", then")?;
    Ok(())
}

/// Whether the file opens with one of two contents.
fn opens_with(disk: &mut MemDisk, before: &[u8], after: &[u8]) -> bool {
    if disk.bytes(NAME).is_none() {
        return false;
    }
    let Ok(gate) = Gate::open(disk, NAME) else {
        return false;
    };
    let bytes = disk.bytes(NAME).unwrap_or(&[]);
    let content = bytes.get(128..gate.end() as usize).unwrap_or(&[]);
    content == before || content == after
}

/// Whether a first append that stops after so many calls leaves nothing or all.
fn first_append(alloc: Global, calls: u64, image: u64) -> Result<bool, Fail> {
    let mut disk = MemDisk::new(alloc, Vec::new(alloc));
    disk.fuse(calls);
    let done = one(&mut disk).is_ok();
    disk.crash(image)?;
    let before = if done { FIRST } else { &[] };
    Ok(done == (calls == 8) && opens_with(&mut disk, before, FIRST))
}

/// Whether a later append that stops after so many calls leaves what was, or all.
fn later_append(alloc: Global, calls: u64, image: u64) -> Result<bool, Fail> {
    let mut disk = MemDisk::new(alloc, Vec::new(alloc));
    disk.fuse(calls);
    let done = two(&mut disk).is_ok();
    disk.crash(image)?;
    let before = if done { BOTH } else { FIRST };
    Ok(done == (calls == 13) && opens_with(&mut disk, before, BOTH))
}

#[test]
fn a_stop_in_a_first_append_leaves_nothing_or_all(rt: HostRuntime) -> Result<(), Fail> {
    let alloc = rt.alloc();
    for image in IMAGES {
        for calls in 1..9 {
            let fine = first_append(alloc, calls, image)?;
            assert_eq!(rt; (calls, image, fine), (calls, image, true));
        }
    }
    Ok(())
}

#[test]
fn a_stop_in_a_later_append_leaves_what_was_or_all(rt: HostRuntime) -> Result<(), Fail> {
    let alloc = rt.alloc();
    for image in IMAGES {
        for calls in 8..14 {
            let fine = later_append(alloc, calls, image)?;
            assert_eq!(rt; (calls, image, fine), (calls, image, true));
        }
    }
    Ok(())
}
