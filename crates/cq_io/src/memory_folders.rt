// One folder in memory, which can be opened once.
ghost use Rattle.std.specs.Prelude.{◌≡◌, ◌↔◌, ◌≤◌, ℕ, List, Some, None, IfOk, IsErr, IsErrOf, IsSome, true, false, string_bytes, option_copied};
ghost use Rattle.cq_disk.specs.declared.disk.DiskError.TheVariants.{Fault as disk_fault};
ghost use Rattle.cq_disk.specs.Rose.{Rose};
ghost use Rattle.cq_io.specs.Streams.{one_more};
ghost use Rattle.cq_io.specs.Folders.{SameAtAll, HandsOut, TakesBack, LeavesOthers, LeavesAll, CountsFaults, TakesOver};

use crate::Folders;
use cq_disk::{Disk, DiskError};
use cq_memdisk::MemDisk;
use std::alloc::Global;

/// One folder, on a disk in memory. It can be opened once; another path and a second opening are faults, and nothing
/// else is.
#[derive(Drop)]
pub struct MemFolders {
    path: String,
    disk: Option<MemDisk>,
    /// Whether it was opened.
    opened: bool,
    /// With how many faults the disk was handed out.
    given: u64,
    faults: u64,
    disk_faults: u64,

    ghost there: { opened ≡ false → IsSome disk },
}

impl MemFolders {
    ghost use Rattle.cq_io.specs.OneFolder.{at_path, KeepsFolder};

    /// A folder at this path, on this disk.
    pub fn new(path: String, disk: MemDisk) -> MemFolders
        ensures inside { ⟦<MemFolders as Folders>⟧.inside result ≡ at_path (string_bytes path) (Some disk) None }
        ensures opens { ⟦<MemFolders as Folders>⟧.opens result ≡ at_path (string_bytes path) true false }
        ensures given { (p : List ℕ) → ⟦<MemFolders as Folders>⟧.given result p ≡ None }
        ensures faults { ⟦<MemFolders as Folders>⟧.faults result ≡ 0 }
        ensures disk_faults { ⟦<MemFolders as Folders>⟧.disk_faults result ≡ 0 }
    {
        MemFolders {
            path,
            disk: Some(disk),
            opened: false,
            given: 0,
            faults: 0,
            disk_faults: 0,
        }
    }

    /// The disk of this path; None where it isn't here now.
    pub fn disk(&self, path: &str) -> Option<&MemDisk>
        ensures { option_copied result ≡ ⟦<MemFolders as Folders>⟧.inside self.now path.now }
    {
        if path != self.path.as_str() {
            return None;
        }
        self.disk.as_ref()
    }

    /// An opening that failed.
    fn fault(&mut self) -> DiskError
        ensures value { result ≡ disk_fault }
        ensures same { KeepsFolder self.old self.new }
        ensures disks { self.new.disk_faults ≡ self.old.disk_faults }
        ensures later { self.old.faults ≤ self.new.faults }
        ensures rose { Rose self.old.faults self.new.faults }
        ensures counted { self.new.faults ≡ one_more self.old.faults }
    {
        self.faults = self.faults.saturating_add(1);
        DiskError::Fault
    }
}

impl Folders for MemFolders {
    ghost use Rattle.cq_io.specs.OneFolder.{inside_of, opens_of, given_of, OpensOnce};

    type D = MemDisk;

    ghost tells = { Unit {0} };

    ghost tells_disks = { λ told. told };

    ghost inside = { inside_of };

    ghost opens = { opens_of };

    ghost given = { given_of };

    ghost faults = { λ f. f.faults };

    ghost disk_faults = { λ f. f.disk_faults };

    fn open_folder(&mut self, _alloc: Global, path: &str) -> Result<MemDisk, DiskError>
        ensures once { IsSome (given_of self.old path.now) → IsErrOf result disk_fault }
        ensures ok { IfOk result (λ disk. HandsOut (Unit {0}) inside_of opens_of given_of
            ⟦<MemDisk as Disk>⟧.faults path.now self.old self.new disk) }
        ensures refused { IsErrOf result disk_fault ↔ (opens_of self.old path.now ≡ false) }
        ensures others { LeavesOthers (Unit {0}) inside_of opens_of given_of path.now self.old self.new }
        ensures same { IsErr result → LeavesAll (Unit {0}) inside_of opens_of given_of self.old self.new }
        ensures counted { CountsFaults (Unit {0}) disk_fault self.old.faults self.new.faults result }
        ensures disks { self.new.disk_faults ≡ self.old.disk_faults }
        ensures opens_once { OpensOnce self.old self.new path.now result }
    {
        if self.opened || path != self.path.as_str() {
            return Err(self.fault());
        }
        match self.disk.take() {
            Some(disk) => {
                self.opened = true;
                self.given = disk.faults();
                Ok(disk)
            }
            None => Err(self.fault()),
        }
    }

    fn close_folder(&mut self, path: &str, disk: MemDisk)
        requires { IsSome (given_of self.old path.now) }
        ensures back { TakesBack (Unit {0}) inside_of given_of path.now self.new disk }
        ensures others { LeavesOthers (Unit {0}) inside_of opens_of given_of path.now self.old self.new }
        ensures shut { SameAtAll (opens_of self.old) (opens_of self.new) }
        ensures faults { self.new.faults ≡ self.old.faults }
        ensures disks { TakesOver (given_of self.old path.now) (⟦<MemDisk as Disk>⟧.faults disk)
            self.old.disk_faults self.new.disk_faults }
    {
        let count = disk.faults();
        if count > self.given || count == u64::MAX {
            self.disk_faults = self.disk_faults.saturating_add(1);
        }
        self.disk = Some(disk);
    }

    fn faults(&self) -> u64 {
        self.faults
    }

    fn disk_faults(&self) -> u64 {
        self.disk_faults
    }
}
