// Folders of the operating system.
ghost use Rattle.std.specs.Prelude.{◌≡◌, ◌↔◌, ◌≤◌, ℕ, List, [], Some, None, IfOk, OnOk, OnErr, IsErr, IsErrOf, IsSome, false};
ghost use Rattle.cq_disk.specs.declared.disk.DiskError.TheVariants.{Fault as disk_fault};
ghost use Rattle.cq_disk.specs.Rose.{Rose};
ghost use Rattle.cq_io.specs.Folders.{HandsOut, TakesBack, LeavesOthers, LeavesAll, CountsFaults, TakesOver};
ghost use Rattle.cq_io.specs.Streams.{Counts, one_more};
ghost use Rattle.cq_realdisk.specs.Paths.{OneMore};

use crate::disk::{RealDisk, told};
use crate::paths::{forget, has};
use cq_disk::{Disk, DiskError};
use cq_io::Folders;
use std::alloc::Global;
use std::fs::File;
use std::io;
use std::rt::Files;

/// Folders of the operating system. They tell nothing of what they hold. Each opening that fails is counted, also one that
/// wants memory.
///
/// A path is its text: `f` and `./f` are two paths, though they are one folder. That nobody else uses a folder while it is
/// open is the user's part.
#[derive(Drop)]
pub struct RealFolders<R: Files<File = File> + AllocGlobal + Clone + Drop> {
    rt: R,
    /// The paths that are open.
    paths: Vec<String>,
    faults: u64,
    disk_faults: u64,
}

impl<R: Files<File = File> + AllocGlobal + Clone + Drop> RealFolders<R> {
    ghost use Rattle.cq_realdisk.specs.Opened.{given_of};

    /// The folders of this runtime, none of which is open.
    pub fn new(rt: R) -> RealFolders<R>
        ensures given { (p : List ℕ) → given_of result p ≡ None }
        ensures faults { result.faults ≡ 0 }
        ensures disk_faults { result.disk_faults ≡ 0 }
    {
        let paths = Vec::new(rt.alloc());
        RealFolders {
            rt,
            paths,
            faults: 0,
            disk_faults: 0,
        }
    }

    /// Opens a path that isn't open.
    fn start(&mut self, alloc: Global, path: &str) -> io::Result<RealDisk<R>>
        ensures ok { IfOk result (λ disk. disk.faults ≡ 0) }
        ensures paths { OnOk result (OneMore path.now self.old.paths.items self.new.paths.items) }
        ensures kept { OnErr result (self.new.paths.items ≡ self.old.paths.items) }
        ensures faults { self.new.faults ≡ self.old.faults }
        ensures disks { self.new.disk_faults ≡ self.old.disk_faults }
    {
        let text = String::from_str(alloc, path)?;
        self.paths.reserve(1)?;
        let disk = RealDisk::open(self.rt.clone()?, String::from_str(alloc, path)?)?;
        self.paths.push_reserved(text);
        Ok(disk)
    }

    /// Counts a disk that was handed back with faults.
    fn take_over(&mut self, count: u64)
        ensures paths { self.new.paths.items ≡ self.old.paths.items }
        ensures faults { self.new.faults ≡ self.old.faults }
        ensures disks { TakesOver (Some 0) count self.old.disk_faults self.new.disk_faults }
    {
        if count > 0 {
            self.disk_faults = self.disk_faults.saturating_add(1);
        }
    }

    /// An opening that failed.
    fn fault(&mut self)
        ensures paths { self.new.paths.items ≡ self.old.paths.items }
        ensures disks { self.new.disk_faults ≡ self.old.disk_faults }
        ensures later { self.old.faults ≤ self.new.faults }
        ensures rose { Rose self.old.faults self.new.faults }
        ensures counted { self.new.faults ≡ one_more self.old.faults }
    {
        self.faults = self.faults.saturating_add(1);
    }
}

impl<R: Files<File = File> + AllocGlobal + Clone + Drop + Send> Folders for RealFolders<R> {
    ghost use Rattle.cq_realdisk.specs.Opened.{inside_of, opens_of, given_of, faults_of};

    type D = RealDisk<R>;

    ghost tells = { ⊥ };

    ghost tells_disks = { λ told. told };

    ghost inside = { inside_of };

    ghost opens = { opens_of };

    ghost given = { given_of };

    ghost faults = { λ f. f.faults };

    ghost disk_faults = { λ f. f.disk_faults };

    fn open_folder(&mut self, alloc: Global, path: &str) -> Result<RealDisk<R>, DiskError>
        ensures once { IsSome (given_of self.old path.now) → IsErrOf result disk_fault }
        ensures ok { IfOk result (λ disk. HandsOut ⊥ inside_of opens_of given_of faults_of path.now self.old self.new disk) }
        ensures others { LeavesOthers ⊥ inside_of opens_of given_of path.now self.old self.new }
        ensures same { IsErr result → LeavesAll ⊥ inside_of opens_of given_of self.old self.new }
        ensures counted { CountsFaults ⊥ disk_fault self.old.faults self.new.faults result }
        ensures disks { self.new.disk_faults ≡ self.old.disk_faults }
        ensures each_counted { Counts self.old.faults self.new.faults result }
    {
        if has(&self.paths, path) {
            self.fault();
            return Err(DiskError::Fault);
        }
        match self.start(alloc, path) {
            Ok(disk) => Ok(disk),
            Err(error) => {
                self.fault();
                Err(told(error))
            }
        }
    }

    fn close_folder(&mut self, path: &str, disk: RealDisk<R>) {
        self.take_over(disk.faults());
        forget(&mut self.paths, path);
    }

    fn faults(&self) -> u64 {
        self.faults
    }

    fn disk_faults(&self) -> u64 {
        self.disk_faults
    }
}
