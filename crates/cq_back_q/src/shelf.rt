// Shared files, whose messages aren't served.
ghost use Rattle.std.specs.Prelude.{◌≡◌, All, IfErr, IsErrOf, OnOk};
ghost use Rattle.cq_disk.specs.declared.name.Kind.TheVariants.{Shared};
ghost use Rattle.cq_disk.specs.Run.{Ran, OnlyReads};
ghost use Rattle.cq_folder.specs.Held.{as_read};
ghost use Rattle.cq_back_q.specs.declared.error.BackError.TheVariants.{Fault as back_fault};
ghost use Rattle.cq_back_q.specs.Damage.{IfDamaged};
ghost use Rattle.cq_back_q.specs.Folder.{IsBare};
ghost use Rattle.cq_back_q.specs.Opens.{IsFolderDamaged};

use crate::error::BackError;
use cq_disk::{Disk, Kind, Name};
use cq_gate::HEADER_LEN;

/// Tests that no shared file among these is longer than 128 bytes. `Damaged` tells the first byte behind the header of the
/// first that is.
pub(crate) fn refuse_shelves<D: Disk>(disk: &mut D, names: &[Name]) -> Result<(), BackError>
    ensures bare { OnOk result (D.tells → All (λ n. n.kind ≡ Shared → IsBare (as_read (D.files disk.old) n)) names.now) }
    ensures damaged { IfErr result (λ error. IfDamaged error (IsFolderDamaged D.tells (as_read (D.files disk.old)))) }
    ensures reads { D.tells → OnlyReads D.Disk disk.old disk.new }
    ensures ran { Ran D.Disk disk.old disk.new (IsErrOf result back_fault) }
{
    for name in names {
        match refuse_shelf(disk, *name) {
            Ok(()) => {}
            Err(error) => return Err(error),
        }
    }
    Ok(())
}

/// Tests that a file isn't a shared one of more than 128 bytes.
fn refuse_shelf<D: Disk>(disk: &mut D, name: Name) -> Result<(), BackError>
    ensures bare { OnOk result (D.tells → name.kind ≡ Shared → IsBare (as_read (D.files disk.old) name)) }
    ensures damaged { IfErr result (λ error. IfDamaged error (IsFolderDamaged D.tells (as_read (D.files disk.old)))) }
    ensures reads { D.tells → OnlyReads D.Disk disk.old disk.new }
    ensures ran { Ran D.Disk disk.old disk.new (IsErrOf result back_fault) }
{
    if name.kind != Kind::Shared {
        return Ok(());
    }
    refuse_long(disk, name)
}

/// Tests that a shared file isn't longer than 128 bytes.
fn refuse_long<D: Disk>(disk: &mut D, name: Name) -> Result<(), BackError>
    requires { name.kind ≡ Shared }
    ensures bare { OnOk result (D.tells → IsBare (as_read (D.files disk.old) name)) }
    ensures damaged { IfErr result (λ error. IfDamaged error (IsFolderDamaged D.tells (as_read (D.files disk.old)))) }
    ensures reads { D.tells → OnlyReads D.Disk disk.old disk.new }
    ensures ran { Ran D.Disk disk.old disk.new (IsErrOf result back_fault) }
{
    let Some(len) = disk.len(name)? else {
        return Ok(());
    };
    if len <= HEADER_LEN {
        return Ok(());
    }
    let mut byte = [0];
    disk.read(name, HEADER_LEN, &mut byte)?;
    Err(BackError::Damaged {
        name,
        place: HEADER_LEN,
        found: byte[0],
    })
}
