// The opening of a queue whose files stand in a folder of the operating system.
use cq_back_q::open_queue;
use cq_disk::Disk;
use cq_io::Folders;
use cq_realdisk::RealFolders;
use std::fs::File;
use std::io;
use std::rt::{Clock, Files};
use std::time::Instant;

/// How often the queue is opened.
const ROUNDS: u32 = 5;

/// Opens the queue 0 of a folder several times, and prints how many messages were found, and the microseconds.
pub(crate) fn show<R: AllocGlobal + Clock + Clone + Drop + Files<File = File> + Print + Send>(
    rt: &R,
    path: &str,
) -> io::Result<()> {
    let mut folders = RealFolders::new(rt.clone()?);
    let Ok(mut disk) = folders.open_folder(rt.alloc(), path) else {
        return println!(rt; "no folder");
    };
    let shown = show_rounds(rt, &mut disk);
    folders.close_folder(path, disk);
    shown
}

/// Opens the queue several times.
fn show_rounds<R: AllocGlobal + Clock + Print, D: Disk>(rt: &R, disk: &mut D) -> io::Result<()>
    requires { D.tells → ⊥ }
{
    for _round in 0..ROUNDS {
        show_opening(rt, disk)?;
    }
    Ok(())
}

/// Opens the queue, and prints how long that took.
fn show_opening<R: AllocGlobal + Clock + Print, D: Disk>(rt: &R, disk: &mut D) -> io::Result<()>
    requires { D.tells → ⊥ }
{
    let Ok(names) = disk.list(rt.alloc()) else {
        return println!(rt; "the folder can't be listed");
    };
    let start = Instant::now(rt)?;
    let opened = open_queue(rt.alloc(), disk, 0, &names);
    let micros = start.elapsed(rt)?.as_micros();
    match opened {
        Ok(found) => println!(rt; "{} messages: {micros} us", found.held.len()),
        Err(error) => println!(rt; "{error}"),
    }
}
