// The files that a record of changes leads to, with what the disk knows of each, and what a crash leaves of them.
ghost use Rattle.std.specs.Prelude.{◌≡◌, ◌<◌, ◌≤◌, ◌+◌, ◌^◌, ℕ, length, get_or, take, Some, OnOk, IfOk};
ghost use Rattle.cq_disk.specs.declared.name.Name.{Name};
ghost use Rattle.cq_disk.specs.File.{File};
ghost use Rattle.cq_disk.specs.Files.{Becomes, HasFile, NamesAre};
ghost use Rattle.cq_memdisk.specs.declared.change.Note.{Note};
ghost use Rattle.cq_memdisk.specs.Change.{changed, files_of, FitsNow, IsSound, IsSoundAt, SoundHistory};
ghost use Rattle.cq_memdisk.specs.Crash.{BecameImage, CrashedFirst};
ghost use Rattle.cq_memdisk.specs.Folder.{bytes_of};
ghost use Rattle.cq_memdisk.specs.Record.{IsKept};
ghost use Rattle.cq_memdisk.specs.Stored.{stored_of};

use crate::change::{Change, Note};
use crate::folder::Folder;
use crate::perform::perform;
use crate::stored::Stored;
use cq_disk::Name;
use std::alloc::{AllocError, Global};
use std::collections::BTreeMap;

pub(crate) type States = BTreeMap<Name, Stored>;

/// Makes a change to one file.
fn apply(states: &mut States, alloc: Global, name: Name, change: &Change) -> Result<(), AllocError>
    requires fits { FitsNow change.now }
    requires sound { (f : File) → stored_of states.old name ≡ Some f → IsSoundAt change.now f }
    ensures { OnOk result
        (Becomes name (changed change.now (stored_of states.old name)) (stored_of states.old) (stored_of states.new)) }
{
    match change {
        Change::Write(at, bytes) => match states.get_mut(&name) {
            Some(file) => file.write(*at, bytes),
            None => Ok(()),
        },
        Change::Cut(len) => {
            if let Some(file) = states.get_mut(&name) {
                file.cut(*len);
            }
            Ok(())
        }
        Change::Sync => match states.get_mut(&name) {
            Some(file) => file.sync(),
            None => Ok(()),
        },
        Change::Create => {
            states.insert(name, Stored::new(alloc))?;
            Ok(())
        }
        Change::Remove => {
            states.remove(&name);
            Ok(())
        }
        Change::Load(bytes) => {
            states.insert(name, Stored::settled(alloc, bytes)?)?;
            Ok(())
        }
    }
}

/// The files that a record leads to.
pub(crate) fn replay(alloc: Global, notes: &[Note]) -> Result<States, AllocError>
    requires { SoundHistory notes.now }
    ensures { IfOk result (λ states. (n : Name) → stored_of states n ≡ files_of notes.now n) }
{
    let mut states = BTreeMap::new(alloc);
    for note in notes {
        apply(&mut states, alloc, note.name, &note.change)?;
    }
    Ok(states)
}

/// Puts image n of one file there.
fn load_image(
    files: &mut Folder,
    notes: &mut Vec<Note>,
    states: &States,
    alloc: Global,
    name: Name,
    place: usize,
    n: u64,
    now: u64,
) -> Result<(), AllocError>
    requires there { HasFile (stored_of states.now name) }
    requires sound { (f : File) → stored_of states.now name ≡ Some f → IsSound f }
    requires kept { IsKept notes.old.items (bytes_of files.old) now }
    ensures kept { OnOk result (IsKept notes.new.items (bytes_of files.new) now) }
    ensures image { OnOk result
        (BecameImage n place name (stored_of states.now) (files_of notes.old.items) (files_of notes.new.items)) }
{
    match states.get(&name) {
        Some(state) => {
            let note = Note {
                from: now,
                name,
                change: Change::Load(state.image(n, place)?),
            };
            perform(files, notes, alloc, note)
        }
        None => Ok(()),
    }
}

/// The bytes and the record of image n of the files that these states are of.
#[tactic(none)]
pub(crate) fn rebuild(
    alloc: Global,
    states: &States,
    names: Vec<Name>,
    n: u64,
    now: u64,
) -> Result<(Folder, Vec<Note>), AllocError>
    requires names { NamesAre (stored_of states.now) names.items }
    requires sound { (m : Name) (f : File) → stored_of states.now m ≡ Some f → IsSound f }
    ensures kept { IfOk result (λ made. IsKept made.1.items (bytes_of made.0) now) }
    ensures crashed { IfOk result
        (λ made. CrashedFirst n (length names.items) names.items (stored_of states.now) (files_of made.1.items)) }
{
    let mut files = BTreeMap::new(alloc);
    let mut notes = Vec::new(alloc);
    for place in 0..names.len() {
        let name = names[place];
        load_image(&mut files, &mut notes, states, alloc, name, place, n, now)?;
    }
    Ok((files, notes))
}
