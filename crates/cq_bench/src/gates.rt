// Gated appends on the disk in memory: of one record and of 4096 records, and of one record onto files that have had many.

use cq_disk::{Disk, Kind, Name};
use cq_gate::Gate;
use cq_memdisk::{Altered, MemDisk};
use std::alloc::{AllocError, Global};
use std::io;
use std::rt::Clock;
use std::time::Instant;

/// The file that is appended to.
const NAME: Name = Name {
    kind: Kind::Index,
    queue: 0,
    number: 0,
};

/// The bytes of a record.
const RECORD: usize = 32;

/// How many records the larger append has.
const MANY: usize = 4096;

/// Makes appends and prints where the content ended; many of them, with the nanoseconds of each, where times are wanted.
pub(crate) fn show<R: AllocGlobal + Clock + Print>(rt: &R, timed: bool) -> io::Result<()> {
    let rounds = if timed { 100_000 } else { 10 };
    for (records, rounds) in [(1, rounds), (1, 2 * rounds), (MANY, rounds / 500 + 1)] {
        let start = Instant::now(rt)?;
        let bytes = appends(rt.alloc(), records, rounds)?;
        let nanos = start.elapsed(rt)?.as_nanos();
        println!(rt; "{rounds} appends of {records} records: the content ends at {bytes}")?;
        if timed {
            println!(rt; "{} ns each", nanos / rounds.max(1) as u128)?;
        }
    }
    Ok(())
}

/// Makes so many appends of so many records, and answers where the content ended.
fn appends(alloc: Global, records: usize, rounds: u32) -> Result<u64, AllocError> {
    let bytes = vec![in alloc; 7; RECORD * records.min(MANY)]?;
    let mut disk = Altered::new(MemDisk::new(alloc, Vec::new(alloc)));
    let Ok(mut gate) = Gate::create(&mut disk, NAME) else {
        return Ok(0);
    };
    for _round in 0..rounds {
        if gate.plan_len() != 0 || bytes.len() > RECORD * MANY {
            break;
        }
        let end = gate.end();
        if end > 1 << 62 || gate.append(&mut disk, &bytes).is_err() {
            break;
        }
    }
    Ok(gate.end())
}
