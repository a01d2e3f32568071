// A folder of the operating system, as a disk that tells nothing.
ghost use Rattle.std.specs.Prelude.{◌≡◌, ◌+◌, ◌-◌, ◌^◌, ◌≤◌, ◌<◌, [], None, All, min, length, OnOk, OnErr, IfOk, IfSome, IsErr, IsErrOf};
ghost use Rattle.cq_disk.specs.declared.disk.DiskError.TheVariants.{Fault as disk_fault};
ghost use Rattle.cq_disk.specs.Names.{IsInRange};
ghost use Rattle.cq_disk.specs.Rose.{Rose};
ghost use Rattle.cq_disk.specs.Call.{Caused};
ghost use Rattle.cq_io.specs.Streams.{Counts, one_more};
ghost use Rattle.cq_realdisk.specs.Calls.{Ticks, PlainlyCalled};

use crate::folder::Folder;
use cq_disk::{Disk, DiskError, Fault, Name};
use std::alloc::Global;
use std::fs::File;
use std::io::{self, ErrorKind};
use std::rt::Files;

/// A folder of the operating system. It tells nothing of what the folder holds. Each call that fails is counted as a fault,
/// also one that wants memory. It keeps at most 64 files open.
///
/// What a call of it has made lasts as the trait says: after a file is made or removed the folder itself is synced.
#[derive(Drop)]
pub struct RealDisk<R: Files<File = File> + AllocGlobal + Clone + Drop> {
    folder: Folder<R>,
    moment: u64,
    faults: u64,
}

impl<R: Files<File = File> + AllocGlobal + Clone + Drop> RealDisk<R> {
    /// The folder at this path, which is made where it is absent.
    pub(crate) fn open(rt: R, path: String) -> io::Result<RealDisk<R>>
        ensures { IfOk result (λ disk. (disk.moment ≡ 0) × (disk.faults ≡ 0)) }
    {
        Ok(RealDisk {
            folder: Folder::open(rt, path)?,
            moment: 0,
            faults: 0,
        })
    }

    /// A call that failed.
    fn fault(&mut self) -> Fault
        ensures moment { self.new.moment ≡ self.old.moment }
        ensures later { self.old.faults ≤ self.new.faults }
        ensures rose { Rose self.old.faults self.new.faults }
        ensures counted { self.new.faults ≡ one_more self.old.faults }
    {
        self.faults = self.faults.saturating_add(1);
        Fault
    }

    /// Counts a call, which fails at the last moment.
    fn count_call(&mut self) -> Result<(), Fault>
        ensures failed { OnErr result (self.old.moment ≡ 2 ^ 64 - 1) }
        ensures moment { self.new.moment ≡ min (self.old.moment + 1) (2 ^ 64 - 1) }
        ensures later { self.old.moment ≤ self.new.moment }
        ensures in_time { OnOk result (self.old.moment < 2 ^ 64 - 1) }
        ensures cause { Caused self.old.faults self.new.faults result }
        ensures counted { Counts self.old.faults self.new.faults result }
    {
        let now = self.moment;
        self.moment = now.saturating_add(1);
        if now == u64::MAX {
            return Err(self.fault());
        }
        Ok(())
    }
}

impl<R: Files<File = File> + AllocGlobal + Clone + Drop> Disk for RealDisk<R> {
    ghost tells = { ⊥ };

    ghost files = { λ d n. None };

    ghost moment = { λ d. d.moment };

    ghost faults = { λ d. d.faults };

    ghost left = { λ d t u image. ⊥ };

    ghost struck = { λ d. d.faults };

    ghost fuse = { λ d. None };

    ghost planned = { λ d. [] };

    ghost now_only = { λ told d image left. absurd told };

    ghost now_each = { λ told d t image le is. absurd told };

    ghost wider = { λ told d s t u v image from to past left. absurd told };

    ghost reads_left = { λ told d name f is. absurd told };

    ghost named = { λ told d name f is. absurd told };

    ghost short = { λ told d name f is. absurd told };

    fn moment(&self) -> u64 {
        self.moment
    }

    fn faults(&self) -> u64 {
        self.faults
    }

    fn list(&mut self, alloc: Global) -> Result<Vec<Name>, DiskError>
        ensures in_range { IfOk result (λ names. All IsInRange names.items) }
        ensures time { Ticks self.old.moment self.new.moment }
        ensures called { PlainlyCalled self.old self.new (λ d. d.moment) (λ d. d.faults) result (IsErrOf result disk_fault) }
        ensures counted { Counts self.old.faults self.new.faults result }
    {
        if self.count_call().is_err() {
            return Err(DiskError::Fault);
        }
        match self.folder.list(alloc) {
            Ok(names) => Ok(names),
            Err(error) => {
                self.fault();
                Err(told(error))
            }
        }
    }

    fn len(&mut self, name: Name) -> Result<Option<u64>, Fault>
        ensures longest { IfOk result (λ len. IfSome len (λ n. n ≤ 2 ^ 62)) }
        ensures time { Ticks self.old.moment self.new.moment }
        ensures called { PlainlyCalled self.old self.new (λ d. d.moment) (λ d. d.faults) result (IsErr result) }
        ensures counted { Counts self.old.faults self.new.faults result }
    {
        self.count_call()?;
        match self.folder.len(name) {
            Ok(len) => Ok(len),
            Err(_) => Err(self.fault()),
        }
    }

    fn read(&mut self, name: Name, at: u64, into: &mut [u8]) -> Result<(), Fault>
        ensures time { Ticks self.old.moment self.new.moment }
        ensures called { PlainlyCalled self.old self.new (λ d. d.moment) (λ d. d.faults) result (IsErr result) }
        ensures counted { Counts self.old.faults self.new.faults result }
    {
        self.count_call()?;
        match self.folder.read(name, at, into) {
            Ok(()) => Ok(()),
            Err(_) => Err(self.fault()),
        }
    }

    fn write(&mut self, name: Name, at: u64, bytes: &[u8]) -> Result<(), Fault>
        ensures fits { OnOk result (at + length bytes.now ≤ 2 ^ 62) }
        ensures time { Ticks self.old.moment self.new.moment }
        ensures called { PlainlyCalled self.old self.new (λ d. d.moment) (λ d. d.faults) result (IsErr result) }
        ensures counted { Counts self.old.faults self.new.faults result }
    {
        self.count_call()?;
        match self.folder.write(name, at, bytes) {
            Ok(()) => Ok(()),
            Err(_) => Err(self.fault()),
        }
    }

    fn cut(&mut self, name: Name, len: u64) -> Result<(), Fault>
        ensures time { Ticks self.old.moment self.new.moment }
        ensures called { PlainlyCalled self.old self.new (λ d. d.moment) (λ d. d.faults) result (IsErr result) }
        ensures counted { Counts self.old.faults self.new.faults result }
    {
        self.count_call()?;
        match self.folder.cut(name, len) {
            Ok(()) => Ok(()),
            Err(_) => Err(self.fault()),
        }
    }

    fn sync(&mut self, name: Name) -> Result<(), Fault>
        ensures time { Ticks self.old.moment self.new.moment }
        ensures called { PlainlyCalled self.old self.new (λ d. d.moment) (λ d. d.faults) result (IsErr result) }
        ensures counted { Counts self.old.faults self.new.faults result }
    {
        self.count_call()?;
        match self.folder.sync(name) {
            Ok(()) => Ok(()),
            Err(_) => Err(self.fault()),
        }
    }

    fn create(&mut self, name: Name) -> Result<(), Fault>
        ensures time { Ticks self.old.moment self.new.moment }
        ensures called { PlainlyCalled self.old self.new (λ d. d.moment) (λ d. d.faults) result (IsErr result) }
        ensures counted { Counts self.old.faults self.new.faults result }
    {
        self.count_call()?;
        match self.folder.create(name) {
            Ok(()) => Ok(()),
            Err(_) => Err(self.fault()),
        }
    }

    fn remove(&mut self, name: Name) -> Result<(), Fault>
        ensures time { Ticks self.old.moment self.new.moment }
        ensures called { PlainlyCalled self.old self.new (λ d. d.moment) (λ d. d.faults) result (IsErr result) }
        ensures counted { Counts self.old.faults self.new.faults result }
    {
        self.count_call()?;
        match self.folder.remove(name) {
            Ok(()) => Ok(()),
            Err(_) => Err(self.fault()),
        }
    }
}

/// Want of memory, or a fault.
pub(crate) fn told(error: io::Error) -> DiskError {
    if error.kind() == ErrorKind::OutOfMemory {
        DiskError::Memory
    } else {
        DiskError::Fault
    }
}
