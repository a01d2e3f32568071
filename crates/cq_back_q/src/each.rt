// One queue of a folder, opened where it has files.
ghost use Rattle.std.specs.Prelude.{IfOk, IfErr, IfSome, IsErrOf, MatchOption};
ghost use Rattle.cq_disk.specs.declared.name.Name.{Name};
ghost use Rattle.cq_disk.specs.Files.{NamesAre};
ghost use Rattle.cq_disk.specs.Run.{Ran, OnlyReads};
ghost use Rattle.cq_folder.specs.Held.{as_read, IsSettled};
ghost use Rattle.cq_back_q.specs.declared.error.BackError.TheVariants.{Fault as back_fault};
ghost use Rattle.cq_back_q.specs.Damage.{IfDamaged, IsDamaged};
ghost use Rattle.cq_back_q.specs.Folder.{HasNoFile};
ghost use Rattle.cq_back_q.specs.Found.{IsFoundOf};
ghost use Rattle.cq_back_q.specs.Listed.{IsReadQueue};

use crate::error::BackError;
use crate::found::FoundQueue;
use crate::open::open_queue;
use crate::own::names_of;
use cq_disk::{Disk, Name};
use std::alloc::Global;

/// Opens a queue, and answers `None` exactly where it has no file among these.
pub(crate) fn open_listed<D: Disk>(
    alloc: Global,
    disk: &mut D,
    queue: u32,
    names: &[Name],
) -> Result<Option<FoundQueue>, BackError>
    requires names { D.tells → NamesAre (D.files disk.old) names.now }
    requires settled { D.tells → (n : Name) → IsSettled (D.files disk.old n) }
    ensures found { IfOk result (λ o. IfSome o (IsFoundOf queue)) }
    ensures read { IfOk result (λ o. D.tells → MatchOption o (HasNoFile queue (D.files disk.old)) (IsReadQueue queue (D.files disk.old))) }
    ensures damaged { IfErr result (λ error. IfDamaged error (IsDamaged D.tells queue (as_read (D.files disk.old)))) }
    ensures reads { D.tells → OnlyReads D.Disk disk.old disk.new }
    ensures ran { Ran D.Disk disk.old disk.new (IsErrOf result back_fault) }
{
    let own = names_of(alloc, queue, names)?;
    if own.is_empty() {
        return Ok(None);
    }
    match open_queue(alloc, disk, queue, &own) {
        Ok(found) => Ok(Some(found)),
        Err(error) => Err(error),
    }
}
