// A change that is made and noted.
ghost use Rattle.std.specs.Prelude.{◌≡◌, [], ◌∷◌, ◌++◌, OnOk, OnErr};
ghost use Rattle.cq_disk.specs.Files.{Becomes, SameFiles};
ghost use Rattle.cq_disk.specs.Names.{IsInRange};
ghost use Rattle.cq_memdisk.specs.Folder.{bytes_of};
ghost use Rattle.cq_memdisk.specs.Change.{rewritten, CanWrite, Fits};

use crate::change::{Change, Note};
use crate::folder;
use crate::folder::Folder;
use cq_disk::Name;
use std::alloc::{AllocError, Global};

/// No file is longer.
const LONGEST: u64 = 1 << 62;

/// Makes a change, and notes it. A name out of range is refused.
pub(crate) fn perform(
    files: &mut Folder,
    notes: &mut Vec<Note>,
    alloc: Global,
    note: Note,
) -> Result<(), AllocError>
    requires { CanWrite note.change (bytes_of files.old note.name) }
    ensures ok { OnOk result
        (Becomes note.name (rewritten note.change (bytes_of files.old note.name)) (bytes_of files.old)
        (bytes_of files.new)) }
    ensures fits { OnOk result (Fits note.change) }
    ensures in_range { OnOk result (IsInRange note.name) }
    ensures noted { OnOk result (notes.new.items ≡ notes.old.items ++ note ∷ []) }
    ensures err { OnErr result (SameFiles (bytes_of files.old) (bytes_of files.new)) }
    ensures not_noted { OnErr result (notes.new.items ≡ notes.old.items) }
{
    if !note.name.is_in_range() {
        return Err(AllocError);
    }
    notes.reserve(1)?;
    apply(files, alloc, note.name, &note.change)?;
    match notes.push(note) {
        Ok(()) => Ok(()),
        Err(_) => unreachable!(),
    }
}

/// Makes a change to the bytes.
fn apply(files: &mut Folder, alloc: Global, name: Name, change: &Change) -> Result<(), AllocError>
    requires { CanWrite change.now (bytes_of files.old name) }
    ensures ok { OnOk result
        (Becomes name (rewritten change.now (bytes_of files.old name)) (bytes_of files.old) (bytes_of files.new)) }
    ensures fits { OnOk result (Fits change.now) }
    ensures err { OnErr result (SameFiles (bytes_of files.old) (bytes_of files.new)) }
{
    match change {
        Change::Write(at, bytes) => {
            let at = *at;
            if at > LONGEST || bytes.len() as u64 > LONGEST - at {
                return Err(AllocError);
            }
            folder::write(files, name, at, bytes)
        }
        Change::Cut(len) => {
            folder::cut(files, name, *len);
            Ok(())
        }
        Change::Sync => Ok(()),
        Change::Create => folder::create(files, alloc, name),
        Change::Remove => {
            folder::remove(files, name);
            Ok(())
        }
        Change::Load(bytes) => {
            if bytes.len() as u64 > LONGEST {
                return Err(AllocError);
            }
            folder::load(files, alloc, name, bytes)
        }
    }
}
