// Making sure that nothing of a folder waits for a sync.
ghost use Rattle.std.specs.Prelude.{◌≡◌, ℕ, None, All, IfOk, IfErr, OnOk, IsErrOf, IsErr};
ghost use Rattle.cq_disk.specs.declared.name.Name.{Name};
ghost use Rattle.cq_disk.specs.Files.{HasFile, IsImage, NamesAre, SameFiles};
ghost use Rattle.cq_disk.specs.Run.{Ran, LeavesOnly};
ghost use Rattle.cq_folder.specs.Held.{IsSettled};
ghost use Rattle.cq_back_q.specs.declared.error.BackError.TheVariants.{Fault as back_fault};
ghost use Rattle.cq_back_q.specs.Damage.{IfDamaged};
ghost use Rattle.cq_back_q.specs.Folder.{ReadsSame};

use crate::error::BackError;
use cq_disk::{Disk, DiskError, Fault, Name};
use std::alloc::Global;

/// Lists the files that are there, and syncs each in the order of the names. It finds nothing damaged.
pub(crate) fn sync_all<D: Disk>(alloc: Global, disk: &mut D) -> Result<Vec<Name>, BackError>
    ensures names { IfOk result (λ names. D.tells → NamesAre (D.files disk.old) names.items) }
    ensures sound { IfErr result (λ error. IfDamaged error (λ name place found. ⊥)) }
    ensures settled { OnOk result (D.tells → (n : Name) → IsSettled (D.files disk.new n)) }
    ensures reads { D.tells → (IsErrOf result back_fault → ⊥) → ReadsSame (D.files disk.old) (D.files disk.new) }
    ensures no_new { D.tells → (n : Name) → D.files disk.old n ≡ None → D.files disk.new n ≡ None }
    ensures any_moment { D.tells → LeavesOnly D.Disk disk.old disk.new (IsImage (D.files disk.old)) }
    ensures ran { Ran D.Disk disk.old disk.new (IsErrOf result back_fault) }
{
    let names = list(alloc, disk)?;
    sync_each(disk, &names)?;
    Ok(names)
}

/// The names of the files that are there, in order.
fn list<D: Disk>(alloc: Global, disk: &mut D) -> Result<Vec<Name>, BackError>
    ensures names { IfOk result (λ names. D.tells → NamesAre (D.files disk.old) names.items) }
    ensures sound { IfErr result (λ error. IfDamaged error (λ name place found. ⊥)) }
    ensures files { D.tells → SameFiles (D.files disk.old) (D.files disk.new) }
    ensures any_moment { D.tells → LeavesOnly D.Disk disk.old disk.new (IsImage (D.files disk.old)) }
    ensures ran { Ran D.Disk disk.old disk.new (IsErrOf result back_fault) }
{
    match disk.list(alloc) {
        Ok(names) => Ok(names),
        Err(DiskError::Fault) => Err(BackError::Fault),
        Err(DiskError::Memory) => Err(BackError::Memory),
    }
}

/// Syncs each of these files in turn.
fn sync_each<D: Disk>(disk: &mut D, names: &[Name]) -> Result<(), Fault>
    requires { D.tells → All (λ n. HasFile (D.files disk.old n)) names.now }
    ensures settled { OnOk result (D.tells → All (λ n. IsSettled (D.files disk.new n)) names.now) }
    ensures reads { OnOk result (D.tells → ReadsSame (D.files disk.old) (D.files disk.new)) }
    ensures no_new { D.tells → (n : Name) → D.files disk.old n ≡ None → D.files disk.new n ≡ None }
    ensures any_moment { D.tells → LeavesOnly D.Disk disk.old disk.new (IsImage (D.files disk.old)) }
    ensures ran { Ran D.Disk disk.old disk.new (IsErr result) }
{
    for name in names {
        disk.sync(*name)?;
    }
    Ok(())
}
