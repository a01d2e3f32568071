// The packing of files in which live records of many lengths stand among as many dead ones.
ghost use Rattle.std.specs.Prelude.{◌<◌, ◌≤◌};

use crate::file;
use cq_pack::pack;
use std::io;
use std::rt::Clock;
use std::time::Instant;

/// Live records of the file that is packed where nothing is timed.
const FEW: u32 = 1000;

/// Packs a file with so many live records among as many dead ones, and prints where it ends then, and the microseconds
/// that packing took if they are wanted.
fn pack_one<R: AllocGlobal + Clock + Print>(rt: &R, count: u32, timed: bool) -> io::Result<()>
    requires some { 0 < count }
    requires fits { count ≤ 1000000 }
{
    let (blocks, live) = file::file(rt.alloc(), count)?;
    let start = Instant::now(rt)?;
    let packing = pack(rt.alloc(), &blocks, &live)?;
    let spent = start.elapsed(rt)?.as_micros();
    if timed {
        println!(rt;
            "{count} live records end at {} after {spent} us",
            packing.new_end
        )
    } else {
        println!(rt; "{count} live records end at {}", packing.new_end)
    }
}

/// Packs a small file, or large ones with the times that they take.
pub(crate) fn show<R: AllocGlobal + Clock + Print>(rt: &R, timed: bool) -> io::Result<()> {
    if !timed {
        return pack_one(rt, FEW, false);
    }
    pack_one(rt, 12_500, true)?;
    pack_one(rt, 25_000, true)?;
    pack_one(rt, 50_000, true)?;
    pack_one(rt, 100_000, true)
}
