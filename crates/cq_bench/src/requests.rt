// Requests through one lane between two threads, through 64 lanes to one taker, and through a locked queue.

use crate::{lanes, locked};
use std::io;
use std::rt::Clock;
use std::sync::Wait;
use std::thread::Threads;
use std::time::Instant;

/// Requests that are passed each way where nothing is timed.
const FEW: u32 = 6400;

/// Requests that are passed each way where the time is taken.
const MANY: u32 = 1_280_000;

/// Passes requests each way and prints how many; many of them, with the nanoseconds of each, where times are wanted.
pub(crate) fn show<R: AllocGlobal + Clock + Print + Sync + Threads + Wait>(
    rt: &R,
    timed: bool,
) -> io::Result<()> {
    let count = if timed { MANY } else { FEW };
    let start = Instant::now(rt)?;
    let one = lanes::one_lane(rt, rt.alloc(), count)?;
    let after_one = start.elapsed(rt)?.as_nanos();
    let many = lanes::many_lanes(rt, rt.alloc(), count)?;
    let after_many = start.elapsed(rt)?.as_nanos();
    let locked = locked::locked(rt, rt.alloc(), count)?;
    let after_locked = start.elapsed(rt)?.as_nanos();
    println!(rt; "one lane {one}, 64 lanes {many}, locked queue {locked}")?;
    if timed {
        let per = count as u128;
        println!(rt; "one lane {} ns", after_one / per)?;
        println!(rt;
            "64 lanes {} ns",
            after_many.saturating_sub(after_one) / per
        )?;
        println!(rt;
            "locked queue {} ns",
            after_locked.saturating_sub(after_many) / per
        )?;
    }
    Ok(())
}
