//! Times parts of the store by themselves. A word picks the part: `gates`, `requests`, `packs`, `queues`, `texts`, or
//! `disks` or `openings` and a folder's path; each prints what it did, with nanoseconds or microseconds for each. Without a word
//! it does a little of each but the last two, and takes no time.
#![tactic(auto)]

mod disks;
mod file;
mod gates;
mod lanes;
mod locked;
mod openings;
mod packs;
mod queues;
mod requests;
mod texts;

use std::fs::File;
use std::rt::{Clock, Files};
use std::sync::Wait;
use std::thread::Threads;
use std::time::CpuClock;
use std::{env, io};

fn main(rt: HostRuntime) -> io::Result<()> {
    let mut words = env::args(&rt)?;
    let _program = words.next();
    match words.next() {
        Some(part) => time(&rt, &part, words.next().as_deref()),
        None => try_out(&rt),
    }
}

/// Takes the times of a part.
fn time<
    R: AllocGlobal
        + Clock
        + Clone
        + CpuClock
        + Drop
        + Files<File = File>
        + Print
        + Send
        + Sync
        + Threads
        + Wait,
>(rt: &R, part: &str, folder: Option<&str>) -> io::Result<()> {
    match part {
        "disks" => match folder {
            Some(folder) => disks::show(rt, folder),
            None => println!(rt; "no folder is named"),
        },
        "openings" => match folder {
            Some(folder) => openings::show(rt, folder),
            None => println!(rt; "no folder is named"),
        },
        "gates" => gates::show(rt, true),
        "requests" => requests::show(rt, true),
        "packs" => packs::show(rt, true),
        "queues" => queues::show(rt, true),
        "texts" => texts::show(rt, true),
        _ => println!(rt; "no such part"),
    }
}

/// Does a little of each part.
fn try_out<R: AllocGlobal + Clock + CpuClock + Print + Sync + Threads + Wait>(
    rt: &R,
) -> io::Result<()> {
    gates::show(rt, false)?;
    requests::show(rt, false)?;
    packs::show(rt, false)?;
    queues::show(rt, false)?;
    texts::show(rt, false)
}
