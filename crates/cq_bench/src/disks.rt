// Writes of 100 bytes over one another into a file of a folder of the operating system, with and without a sync after each.
ghost use Rattle.std.specs.Prelude.{◌<◌};

use cq_disk::{Disk, Fault, Kind, Name};
use cq_io::Folders;
use cq_realdisk::RealFolders;
use std::fs::File;
use std::io;
use std::rt::{Clock, Files};
use std::time::Instant;

/// The file that is written.
const NAME: Name = Name {
    kind: Kind::Small,
    queue: 0,
    number: 0,
};

/// Opens a folder, makes the writes and prints the nanoseconds of each.
pub(crate) fn show<R: AllocGlobal + Clock + Clone + Drop + Files<File = File> + Print + Send>(
    rt: &R,
    path: &str,
) -> io::Result<()> {
    let mut folders = RealFolders::new(rt.clone()?);
    let Ok(mut disk) = folders.open_folder(rt.alloc(), path) else {
        return println!(rt; "no folder");
    };
    let shown = show_writes(rt, &mut disk);
    folders.close_folder(path, disk);
    shown
}

/// Makes the file, writes it so many times, and removes it.
fn show_writes<R: Clock + Print, D: Disk>(rt: &R, disk: &mut D) -> io::Result<()>
    requires { D.tells → ⊥ }
{
    if disk.create(NAME).is_err() {
        return println!(rt; "the file can't be made");
    }
    show_rounds(rt, disk, "write", 200_000, false)?;
    show_rounds(rt, disk, "write and sync", 2_000, true)?;
    if disk.remove(NAME).is_err() {
        return println!(rt; "the file can't be removed");
    }
    Ok(())
}

/// Writes so many times, and prints the nanoseconds of each.
fn show_rounds<R: Clock + Print, D: Disk>(
    rt: &R,
    disk: &mut D,
    what: &str,
    rounds: u32,
    synced: bool,
) -> io::Result<()>
    requires untold { D.tells → ⊥ }
    requires some { 0 < rounds }
{
    let start = Instant::now(rt)?;
    let done = writes(disk, rounds, synced);
    let nanos = start.elapsed(rt)?.as_nanos();
    if done.is_err() {
        return println!(rt; "{what}: the disk failed");
    }
    println!(rt; "{what}: {} ns each", nanos / rounds as u128)
}

/// Writes so many times, each with a sync where that is wanted.
fn writes<D: Disk>(disk: &mut D, rounds: u32, synced: bool) -> Result<(), Fault>
    requires { D.tells → ⊥ }
{
    for _round in 0..rounds {
        disk.write(NAME, 0, &[7; 100])?;
        if synced {
            disk.sync(NAME)?;
        }
    }
    Ok(())
}
