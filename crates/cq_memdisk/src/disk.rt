// The disk in memory.
ghost use Rattle.std.specs.Prelude.{◌≡◌, ◌⊎◌, ◌<◌, ◌≤◌, ◌+◌, ◌-◌, ◌^◌, List, ℕ, Some, None, Option, min, length, get_or, [], ◌∷◌, ◌++◌, All, Contains, OnOk, OnErr, IsErr, IsErrOf, IfOk, IfSome, IsTrue, ◌↔◌};
ghost use Rattle.std.specs.Option.{option_map};
ghost use Rattle.cq_memdisk.specs.declared.change.Note.{Note};
ghost use Rattle.cq_disk.specs.declared.name.Name.{Name};
ghost use Rattle.cq_disk.specs.declared.disk.DiskError.TheVariants.{Fault as disk_fault};
ghost use Rattle.cq_disk.specs.File.{File, settled, wrote, cut_to, synced_now, fresh};
ghost use Rattle.cq_disk.specs.Files.{Becomes, BecomesOrNot, Changes, ChangesWithin, SameFiles, HasFile, HasRange, LenIs, Reads, NamesAre};
ghost use Rattle.cq_disk.specs.Names.{IsInRange};
ghost use Rattle.cq_disk.specs.Rose.{Rose};
ghost use Rattle.cq_disk.specs.Call.{Elapses, Caused, CausedOf, StruckBy, StruckByOf, AfterFuse, BeforeFuse, KeepsPlan};
ghost use Rattle.cq_memdisk.specs.Crash.{SameLeftBefore};
ghost use Rattle.cq_memdisk.specs.Folder.{bytes_of};
ghost use Rattle.cq_memdisk.specs.Record.{only_now, each_now, left_wider, reads_of, sound_now};
ghost use Rattle.cq_memdisk.specs.Change.{changed, rewritten, CanChange, CanWrite, HasBytes, Fits, SoundHistory, files_of, LeftBetween};

use crate::change::{Change, Note};
use crate::crashable::Crashable;
use crate::folder::Folder;
use crate::perform::perform;
use crate::{folder, replay};
use cq_disk::{Disk, DiskError, Fault, Name};
use std::alloc::{AllocError, Global};
use std::collections::BTreeMap;

/// A disk in memory. It keeps the bytes as they read and a record of all changes, and can be made to fail.
///
/// No call takes time that grows with a file's length or with the record.
#[derive(Drop)]
pub struct MemDisk {
    alloc: Global,
    files: Folder,
    notes: Vec<Note>,
    since: u64,
    moment: u64,
    faults: u64,
    refused: u64,
    struck: u64,
    fuse: Option<u64>,
    fails: Vec<u64>,

    // The record leads to the bytes.
    ghost kept: { (n : Name) → reads_of (files_of notes.items n) ≡ bytes_of files n },
    ghost past: { (k : ℕ) (d : Note) → k < length notes.items → (get_or notes.items k d).from ≤ moment },
    ghost begun: { since ≤ moment },
    ghost history: { SoundHistory notes.items },

    // Where no call was made to fail, only refused growths strike, but for the last moment.
    ghost strikes: { fails.items ≡ [] → moment < 2 ^ 64 - 1 → struck ≡ refused },

    // A refused growth strikes, and what strikes is a fault.
    ghost counts: { (refused ≤ struck) × (struck ≤ faults) },
}

impl MemDisk {
    ghost use Rattle.cq_memdisk.specs.Counts.{Counted, files_in, KeepsCounts, KeepsFaults, KeepsFiles, MemCalled, Refuses, Ticks};

    /// A disk with no files. The calls whose moment before the call stands in `fails` answer Fault and do nothing.
    pub fn new(alloc: Global, fails: Vec<u64>) -> MemDisk
        ensures files { (n : Name) → ⟦<MemDisk as Disk>⟧.files result n ≡ None }
        ensures planned { ⟦<MemDisk as Disk>⟧.planned result ≡ fails.items }
        ensures fuse { ⟦<MemDisk as Disk>⟧.fuse result ≡ None }
        ensures moment { ⟦<MemDisk as Disk>⟧.moment result ≡ 0 }
        ensures faults { ⟦<MemDisk as Disk>⟧.faults result ≡ 0 }
        ensures struck { ⟦<MemDisk as Disk>⟧.struck result ≡ 0 }
        ensures refused { result.refused ≡ 0 }
    {
        MemDisk {
            alloc,
            files: BTreeMap::new(alloc),
            notes: Vec::new(alloc),
            since: 0,
            moment: 0,
            faults: 0,
            refused: 0,
            struck: 0,
            fuse: None,
            fails,
        }
    }

    /// How many growths this disk was refused, or files with a name out of range. It never falls, and stays at its last value.
    ///
    /// Where no call is planned to fail and the moment is below its last value, these are all faults but those past a fuse.
    pub fn refused(&self) -> u64
        ensures value { result ≡ self.now.refused }
        ensures struck { ⟦<MemDisk as Disk>⟧.planned self.now ≡ [] → ⟦<MemDisk as Disk>⟧.moment self.now < 2 ^ 64 - 1
            → result ≡ ⟦<MemDisk as Disk>⟧.struck self.now }
    {
        self.refused
    }

    /// A file's bytes as they read; None exactly where the file isn't there.
    pub fn bytes(&self, name: Name) -> Option<&[u8]>
        ensures { option_map (λ bytes. bytes.now) result ≡ option_map
            (λ f. f.reads) (⟦<MemDisk as Disk>⟧.files self.now name) }
    {
        match self.files.get(&name) {
            Some(file) => Some(file.as_slice()),
            None => None,
        }
    }

    /// Puts a file there, all of it on the disk. It is no call of the device, and changes nothing of what a crash before
    /// now may have left. Where memory is refused nothing changes; a name out of range is refused likewise.
    pub fn load(&mut self, name: Name, bytes: &[u8]) -> Result<(), AllocError>
        requires { length bytes.now ≤ 2 ^ 62 }
        ensures ok { OnOk result
            (Becomes name (Some (settled bytes.now)) (⟦<MemDisk as Disk>⟧.files self.old)
            (⟦<MemDisk as Disk>⟧.files self.new)) }
        ensures err { OnErr result
            (SameFiles (⟦<MemDisk as Disk>⟧.files self.old) (⟦<MemDisk as Disk>⟧.files self.new)) }
        ensures counts { KeepsCounts self.old self.new }
        ensures left { SameLeftBefore (⟦<MemDisk as Disk>⟧.moment self.old) (⟦<MemDisk as Disk>⟧.left self.old)
            (⟦<MemDisk as Disk>⟧.left self.new) }
    {
        let note = Note {
            from: self.moment,
            name,
            change: Change::Load(bytes.to_vec(self.alloc)?),
        };
        perform(&mut self.files, &mut self.notes, self.alloc, note)
    }

    /// Time goes on by one call.
    fn tick(&mut self) -> u64
        ensures value { result ≡ self.old.moment }
        ensures files { KeepsFiles self.old self.new }
        ensures faults { KeepsFaults self.old self.new }
        ensures time { Ticks self.old self.new }
    {
        let now = self.moment;
        self.moment = now.saturating_add(1);
        now
    }

    /// Whether the call at a moment is made to fail.
    fn is_planned(&self, now: u64) -> bool
        ensures { IsTrue result ↔ Contains self.now.fails.items now }
    {
        self.fails.contains(&now)
    }

    /// Counts a call, and fails it past the fuse, at the moments that are to fail, and at the last one.
    fn count_call(&mut self) -> Result<(), Fault>
        ensures files { KeepsFiles self.old self.new }
        ensures refused { self.new.refused ≡ self.old.refused }
        ensures time { Ticks self.old self.new }
        ensures called { MemCalled self.old self.new result (IsErr result) }
        ensures counts { Counted self.old self.new result (IsErr result) }
        ensures failed { OnErr result
            (BeforeFuse self.old.fuse self.old.moment → self.old.moment < 2 ^ 64 - 1
            → Contains self.old.fails.items self.old.moment) }
    {
        let now = self.tick();
        if self.fuse.is_some_and(|fuse| fuse <= now) {
            self.faults = self.faults.saturating_add(1);
            return Err(Fault);
        }
        if now == u64::MAX || self.is_planned(now) {
            self.faults = self.faults.saturating_add(1);
            self.struck = self.struck.saturating_add(1);
            return Err(Fault);
        }
        Ok(())
    }

    /// A growth was refused, or a file with a name out of range.
    fn refuse(&mut self) -> Fault
        ensures files { KeepsFiles self.old self.new }
        ensures counts { Refuses self.old self.new }
    {
        self.faults = self.faults.saturating_add(1);
        self.struck = self.struck.saturating_add(1);
        self.refused = self.refused.saturating_add(1);
        Fault
    }

    /// A call for which there is no memory.
    fn refuse_call(&mut self) -> Result<(), Fault>
        ensures err { IsErr result }
        ensures fault { SameFiles (files_in self.old) (files_in self.new) }
        ensures time { Ticks self.old self.new }
        ensures called { MemCalled self.old self.new result (IsErr result) }
        ensures counts { Counted self.old self.new result (IsErr result) }
    {
        self.count_call()?;
        Err(self.refuse())
    }

    /// A call that changes one file.
    fn change(&mut self, name: Name, change: Change) -> Result<(), Fault>
        requires can { CanChange change (files_in self.old name) }
        requires bytes { HasBytes change }
        ensures ok { OnOk result
            (Becomes name (changed change (files_in self.old name)) (files_in self.old) (files_in self.new)) }
        ensures fits { OnOk result (Fits change) }
        ensures fault { OnErr result (SameFiles (files_in self.old) (files_in self.new)) }
        ensures time { Ticks self.old self.new }
        ensures called { MemCalled self.old self.new result (IsErr result) }
        ensures counts { Counted self.old self.new result (IsErr result) }
    {
        self.count_call()?;
        let note = Note {
            from: self.moment,
            name,
            change,
        };
        match perform(&mut self.files, &mut self.notes, self.alloc, note) {
            Ok(()) => Ok(()),
            Err(_) => Err(self.refuse()),
        }
    }
}

impl Disk for MemDisk {
    ghost use Rattle.cq_memdisk.specs.Counts.{Counted, files_in, MemCalled, Ticks};

    ghost tells = { Unit {0} };

    ghost files = { λ d n. files_of d.notes.items n };

    ghost moment = { λ d. d.moment };

    ghost faults = { λ d. d.faults };

    ghost left = { λ d t u image. LeftBetween d.notes.items d.since d.moment t u image };

    ghost struck = { λ d. d.struck };

    ghost fuse = { λ d. d.fuse };

    ghost planned = { λ d. d.fails.items };

    ghost now_only = { λ told d image left. only_now d.notes.items d.since d.moment image d.past left };

    ghost now_each = { λ told d t image le is. each_now d.notes.items d.since d.moment t image d.past d.begun le is };

    ghost wider = { λ told d s t u v image from to past left. left_wider d.notes.items d.since d.moment s t u v image from to left };

    ghost reads_left = { λ told d name f is. (sound_now d.notes.items d.history name f is).readable };

    ghost named = { λ told d name f is. d.history.named name f is };

    ghost short = { λ told d name f is. (sound_now d.notes.items d.history name f is).short };

    fn moment(&self) -> u64 {
        self.moment
    }

    fn faults(&self) -> u64 {
        self.faults
    }

    fn list(&mut self, alloc: Global) -> Result<Vec<Name>, DiskError>
        ensures names { IfOk result (λ names. NamesAre (files_in self.old) names.items) }
        ensures in_range { IfOk result (λ names. All IsInRange names.items) }
        ensures files { SameFiles (files_in self.old) (files_in self.new) }
        ensures time { Ticks self.old self.new }
        ensures called { MemCalled self.old self.new result (IsErrOf result disk_fault) }
        ensures counts { Counted self.old self.new result (IsErrOf result disk_fault) }
    {
        if self.count_call().is_err() {
            return Err(DiskError::Fault);
        }
        match folder::names(&self.files, alloc) {
            Ok(names) => Ok(names),
            Err(_) => Err(DiskError::Memory),
        }
    }

    fn len(&mut self, name: Name) -> Result<Option<u64>, Fault>
        ensures len { IfOk result (λ len. LenIs (files_in self.old name) len) }
        ensures longest { IfOk result (λ len. IfSome len (λ n. n ≤ 2 ^ 62)) }
        ensures files { SameFiles (files_in self.old) (files_in self.new) }
        ensures time { Ticks self.old self.new }
        ensures called { MemCalled self.old self.new result (IsErr result) }
        ensures counts { Counted self.old self.new result (IsErr result) }
    {
        self.count_call()?;
        match self.files.get(&name) {
            Some(file) => Ok(Some(file.len() as u64)),
            None => Ok(None),
        }
    }

    fn read(&mut self, name: Name, at: u64, into: &mut [u8]) -> Result<(), Fault>
        requires { HasRange (files_in self.old name) at (length into.old) }
        ensures bytes { OnOk result (Reads (files_in self.old name) at into.new) }
        ensures files { SameFiles (files_in self.old) (files_in self.new) }
        ensures time { Ticks self.old self.new }
        ensures called { MemCalled self.old self.new result (IsErr result) }
        ensures counts { Counted self.old self.new result (IsErr result) }
    {
        self.count_call()?;
        if let Some(file) = self.files.get(&name) {
            let start = at as usize;
            into.copy_from_slice(&file[start..start + into.len()]);
        }
        Ok(())
    }

    fn write(&mut self, name: Name, at: u64, bytes: &[u8]) -> Result<(), Fault>
        requires { HasRange (files_in self.old name) at 0 }
        ensures ok { OnOk result (Changes name (wrote at bytes.now) (files_in self.old) (files_in self.new)) }
        ensures fault { OnErr result (ChangesWithin name (wrote at bytes.now) (files_in self.old) (files_in self.new)) }
        ensures fits { OnOk result (at + length bytes.now ≤ 2 ^ 62) }
        ensures time { Ticks self.old self.new }
        ensures called { MemCalled self.old self.new result (IsErr result) }
        ensures unchanged { OnErr result (SameFiles (files_in self.old) (files_in self.new)) }
        ensures counts { Counted self.old self.new result (IsErr result) }
    {
        match bytes.to_vec(self.alloc) {
            Ok(bytes) => self.change(name, Change::Write(at, bytes)),
            Err(_) => self.refuse_call(),
        }
    }

    fn sync(&mut self, name: Name) -> Result<(), Fault>
        requires { HasFile (files_in self.old name) }
        ensures ok { OnOk result (Changes name synced_now (files_in self.old) (files_in self.new)) }
        ensures fault { OnErr result (ChangesWithin name (λ f. f) (files_in self.old) (files_in self.new)) }
        ensures time { Ticks self.old self.new }
        ensures called { MemCalled self.old self.new result (IsErr result) }
        ensures unchanged { OnErr result (SameFiles (files_in self.old) (files_in self.new)) }
        ensures counts { Counted self.old self.new result (IsErr result) }
    {
        self.change(name, Change::Sync)
    }

    fn cut(&mut self, name: Name, len: u64) -> Result<(), Fault>
        requires { HasRange (files_in self.old name) len 0 }
        ensures ok { OnOk result (Changes name (cut_to len) (files_in self.old) (files_in self.new)) }
        ensures fault { OnErr result (ChangesWithin name (cut_to len) (files_in self.old) (files_in self.new)) }
        ensures time { Ticks self.old self.new }
        ensures called { MemCalled self.old self.new result (IsErr result) }
        ensures unchanged { OnErr result (SameFiles (files_in self.old) (files_in self.new)) }
        ensures counts { Counted self.old self.new result (IsErr result) }
    {
        self.change(name, Change::Cut(len))
    }

    fn create(&mut self, name: Name) -> Result<(), Fault>
        requires { files_in self.old name ≡ None }
        ensures ok { OnOk result (Becomes name (Some fresh) (files_in self.old) (files_in self.new)) }
        ensures fault { OnErr result (BecomesOrNot name (Some fresh) (files_in self.old) (files_in self.new)) }
        ensures time { Ticks self.old self.new }
        ensures called { MemCalled self.old self.new result (IsErr result) }
        ensures unchanged { OnErr result (SameFiles (files_in self.old) (files_in self.new)) }
        ensures counts { Counted self.old self.new result (IsErr result) }
    {
        self.change(name, Change::Create)
    }

    fn remove(&mut self, name: Name) -> Result<(), Fault>
        requires { HasFile (files_in self.old name) }
        ensures ok { OnOk result (Becomes name None (files_in self.old) (files_in self.new)) }
        ensures fault { OnErr result (BecomesOrNot name None (files_in self.old) (files_in self.new)) }
        ensures time { Ticks self.old self.new }
        ensures called { MemCalled self.old self.new result (IsErr result) }
        ensures unchanged { OnErr result (SameFiles (files_in self.old) (files_in self.new)) }
        ensures counts { Counted self.old self.new result (IsErr result) }
    {
        self.change(name, Change::Remove)
    }
}

impl Crashable for MemDisk {
    ghost told = { tt };

    fn fuse(&mut self, calls: u64) {
        self.fuse = Some(self.moment.saturating_add(calls));
    }

    fn crash(&mut self, n: u64) -> Result<(), AllocError> {
        let states = replay::replay(self.alloc, &self.notes)?;
        let names = folder::names(&self.files, self.alloc)?;
        let (files, notes) = replay::rebuild(self.alloc, &states, names, n, self.moment)?;
        self.files = files;
        self.notes = notes;
        self.since = self.moment;
        self.fuse = None;
        Ok(())
    }
}
