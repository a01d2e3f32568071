// A disk for tests that gives other bytes than it was written.
ghost use Rattle.std.specs.Prelude.{◌≡◌, ◌+◌, ◌-◌, ◌%◌, ◌^◌, ◌≤◌, ◌<◌, [], ◌↔◌, All, None, Some, min, length, slice_index, EachIndex, OnOk, OnErr, IfOk, IfSome, IsErr, IsErrOf, IsTrue, IsFalse};
ghost use Rattle.cq_disk.specs.declared.disk.DiskError.TheVariants.{Fault as disk_fault};
ghost use Rattle.cq_disk.specs.File.{wrote, cut_to, synced_now, fresh};
ghost use Rattle.cq_disk.specs.Files.{Becomes, Changes, SameFiles, HasFile, HasRange, LenIs, NamesAre};
ghost use Rattle.cq_disk.specs.Names.{IsInRange};
ghost use Rattle.cq_disk.specs.Rose.{Rose};
ghost use Rattle.cq_disk.specs.Call.{Elapses, Caused, CausedOf, StruckBy, StruckByOf, AfterFuse, KeepsPlan};
ghost use Rattle.cq_memdisk.specs.Counts.{files_in};
ghost use Rattle.cq_memdisk.specs.Given.{given, GivesAltered};

use crate::disk::MemDisk;
use cq_disk::{Disk, DiskError, Fault, Kind, Name};
use std::alloc::Global;

/// A disk that passes each call on, but tells nothing of its files, and gives each byte that is read of a small store
/// or a shared file one higher, 255 as 0. What is answered from files shows so.
///
/// A call that doesn't meet a condition of the disk within isn't passed on, and is a fault. It counts its own calls and
/// its own faults.
#[derive(Drop)]
pub struct Altered {
    disk: MemDisk,
    moment: u64,
    faults: u64,
}

impl Altered {
    /// Reads what is in this disk so.
    pub fn new(disk: MemDisk) -> Altered
        ensures disk { result.disk ≡ disk }
        ensures moment { ⟦<Altered as Disk>⟧.moment result ≡ 0 }
        ensures faults { ⟦<Altered as Disk>⟧.faults result ≡ 0 }
    {
        Altered {
            disk,
            moment: 0,
            faults: 0,
        }
    }

    /// A call that failed.
    fn fault(&mut self) -> Fault
        ensures disk { self.new.disk ≡ self.old.disk }
        ensures moment { self.new.moment ≡ self.old.moment }
        ensures later { self.old.faults ≤ self.new.faults }
        ensures rose { Rose self.old.faults self.new.faults }
    {
        self.faults = self.faults.saturating_add(1);
        Fault
    }

    /// Counts a call, which fails at the last moment.
    fn count_call(&mut self) -> Result<(), Fault>
        ensures disk { self.new.disk ≡ self.old.disk }
        ensures failed { OnErr result (self.old.moment ≡ 2 ^ 64 - 1) }
        ensures moment { self.new.moment ≡ min (self.old.moment + 1) (2 ^ 64 - 1) }
        ensures later { self.old.moment ≤ self.new.moment }
        ensures in_time { OnOk result (self.old.moment < 2 ^ 64 - 1) }
        ensures cause { Caused self.old.faults self.new.faults result }
    {
        let now = self.moment;
        self.moment = now.saturating_add(1);
        if now == u64::MAX {
            return Err(self.fault());
        }
        Ok(())
    }

    /// Whether a file is there and has this range.
    fn has_range(&self, name: Name, at: u64, len: usize) -> bool
        ensures { IsTrue result ↔ HasRange (files_in self.now.disk name) at len }
    {
        match self.disk.bytes(name) {
            Some(bytes) => {
                let most = bytes.len() as u64;
                at <= most && len as u64 <= most - at
            }
            None => false,
        }
    }

    /// Whether a file is there.
    fn has(&self, name: Name) -> bool
        ensures there { IsTrue result ↔ HasFile (files_in self.now.disk name) }
        ensures absent { IsFalse result → files_in self.now.disk name ≡ None }
    {
        self.disk.bytes(name).is_some()
    }
}

/// What is given of the bytes of a file of this kind.
fn alter(kind: Kind, bytes: &mut [u8])
    ensures len { length bytes.new ≡ length bytes.old }
    ensures given { EachIndex bytes.new (λ k. slice_index bytes.new k ≡ given kind (slice_index bytes.old k)) }
{
    match kind {
        Kind::Index => {}
        Kind::Small | Kind::Shared => raise(bytes),
    }
}

/// Each byte one higher, 255 as 0.
fn raise(bytes: &mut [u8])
    ensures len { length bytes.new ≡ length bytes.old }
    ensures raised { EachIndex bytes.new (λ k. slice_index bytes.new k ≡ (slice_index bytes.old k + 1) % 256) }
{
    for byte in bytes.iter_mut() {
        *byte = byte.wrapping_add(1);
    }
}

impl Disk for Altered {
    ghost use Rattle.cq_memdisk.specs.HandsOn.{AlteredCalled, HandsOn};

    ghost tells = { ⊥ };

    ghost files = { λ d n. None };

    ghost moment = { λ d. d.moment };

    ghost faults = { λ d. d.faults };

    ghost left = { λ d t u image. ⊥ };

    ghost struck = { λ d. d.faults };

    ghost fuse = { λ d. None };

    ghost planned = { λ d. [] };

    ghost now_only = { λ told d image left. absurd told };

    ghost now_each = { λ told d t image le is. absurd told };

    ghost wider = { λ told d s t u v image from to past left. absurd told };

    ghost reads_left = { λ told d name f is. absurd told };

    ghost named = { λ told d name f is. absurd told };

    ghost short = { λ told d name f is. absurd told };

    fn moment(&self) -> u64 {
        self.moment
    }

    fn faults(&self) -> u64 {
        self.faults
    }

    fn list(&mut self, alloc: Global) -> Result<Vec<Name>, DiskError>
        ensures within { IfOk result (λ names. NamesAre (files_in self.old.disk) names.items) }
        ensures in_range { IfOk result (λ names. All IsInRange names.items) }
        ensures kept { SameFiles (files_in self.old.disk) (files_in self.new.disk) }
        ensures passed { HandsOn self.old self.new result (IsErrOf result disk_fault) (Unit {0}) }
        ensures time { Elapses self.old.moment self.new.moment (λ t u image. ⊥) (λ t u image. ⊥) }
        ensures called { AlteredCalled self.old self.new result (IsErrOf result disk_fault) }
    {
        if self.count_call().is_err() {
            return Err(DiskError::Fault);
        }
        match self.disk.list(alloc) {
            Ok(names) => Ok(names),
            Err(DiskError::Memory) => Err(DiskError::Memory),
            Err(DiskError::Fault) => {
                self.fault();
                Err(DiskError::Fault)
            }
        }
    }

    fn len(&mut self, name: Name) -> Result<Option<u64>, Fault>
        ensures within { IfOk result (λ len. LenIs (files_in self.old.disk name) len) }
        ensures longest { IfOk result (λ len. IfSome len (λ n. n ≤ 2 ^ 62)) }
        ensures kept { SameFiles (files_in self.old.disk) (files_in self.new.disk) }
        ensures passed { HandsOn self.old self.new result (IsErr result) (Unit {0}) }
        ensures time { Elapses self.old.moment self.new.moment (λ t u image. ⊥) (λ t u image. ⊥) }
        ensures called { AlteredCalled self.old self.new result (IsErr result) }
    {
        self.count_call()?;
        match self.disk.len(name) {
            Ok(len) => Ok(len),
            Err(Fault) => Err(self.fault()),
        }
    }

    fn read(&mut self, name: Name, at: u64, into: &mut [u8]) -> Result<(), Fault>
        ensures within { OnOk result (GivesAltered name.kind (files_in self.old.disk name) at into.new) }
        ensures kept { SameFiles (files_in self.old.disk) (files_in self.new.disk) }
        ensures passed { HandsOn self.old self.new result (IsErr result)
            (HasRange (files_in self.old.disk name) at (length into.old)) }
        ensures time { Elapses self.old.moment self.new.moment (λ t u image. ⊥) (λ t u image. ⊥) }
        ensures called { AlteredCalled self.old self.new result (IsErr result) }
    {
        self.count_call()?;
        if !self.has_range(name, at, into.len()) || self.disk.read(name, at, into).is_err() {
            return Err(self.fault());
        }
        alter(name.kind, into);
        Ok(())
    }

    fn write(&mut self, name: Name, at: u64, bytes: &[u8]) -> Result<(), Fault>
        ensures within { OnOk result
            (Changes name (wrote at bytes.now) (files_in self.old.disk) (files_in self.new.disk)) }
        ensures fits { OnOk result (at + length bytes.now ≤ 2 ^ 62) }
        ensures passed { HandsOn self.old self.new result (IsErr result) (HasRange (files_in self.old.disk name) at 0) }
        ensures time { Elapses self.old.moment self.new.moment (λ t u image. ⊥) (λ t u image. ⊥) }
        ensures called { AlteredCalled self.old self.new result (IsErr result) }
    {
        self.count_call()?;
        if !self.has_range(name, at, 0) {
            return Err(self.fault());
        }
        match self.disk.write(name, at, bytes) {
            Ok(()) => Ok(()),
            Err(Fault) => Err(self.fault()),
        }
    }

    fn cut(&mut self, name: Name, len: u64) -> Result<(), Fault>
        ensures within { OnOk result (Changes name (cut_to len) (files_in self.old.disk) (files_in self.new.disk)) }
        ensures passed { HandsOn self.old self.new result (IsErr result) (HasRange (files_in self.old.disk name) len 0) }
        ensures time { Elapses self.old.moment self.new.moment (λ t u image. ⊥) (λ t u image. ⊥) }
        ensures called { AlteredCalled self.old self.new result (IsErr result) }
    {
        self.count_call()?;
        if !self.has_range(name, len, 0) || self.disk.cut(name, len).is_err() {
            return Err(self.fault());
        }
        Ok(())
    }

    fn sync(&mut self, name: Name) -> Result<(), Fault>
        ensures within { OnOk result (Changes name synced_now (files_in self.old.disk) (files_in self.new.disk)) }
        ensures passed { HandsOn self.old self.new result (IsErr result) (HasFile (files_in self.old.disk name)) }
        ensures time { Elapses self.old.moment self.new.moment (λ t u image. ⊥) (λ t u image. ⊥) }
        ensures called { AlteredCalled self.old self.new result (IsErr result) }
    {
        self.count_call()?;
        if !self.has(name) || self.disk.sync(name).is_err() {
            return Err(self.fault());
        }
        Ok(())
    }

    fn create(&mut self, name: Name) -> Result<(), Fault>
        ensures within { OnOk result (Becomes name (Some fresh) (files_in self.old.disk) (files_in self.new.disk)) }
        ensures passed { HandsOn self.old self.new result (IsErr result) (files_in self.old.disk name ≡ None) }
        ensures time { Elapses self.old.moment self.new.moment (λ t u image. ⊥) (λ t u image. ⊥) }
        ensures called { AlteredCalled self.old self.new result (IsErr result) }
    {
        self.count_call()?;
        if self.has(name) || self.disk.create(name).is_err() {
            return Err(self.fault());
        }
        Ok(())
    }

    fn remove(&mut self, name: Name) -> Result<(), Fault>
        ensures within { OnOk result (Becomes name None (files_in self.old.disk) (files_in self.new.disk)) }
        ensures passed { HandsOn self.old self.new result (IsErr result) (HasFile (files_in self.old.disk name)) }
        ensures time { Elapses self.old.moment self.new.moment (λ t u image. ⊥) (λ t u image. ⊥) }
        ensures called { AlteredCalled self.old self.new result (IsErr result) }
    {
        self.count_call()?;
        if !self.has(name) || self.disk.remove(name).is_err() {
            return Err(self.fault());
        }
        Ok(())
    }
}
