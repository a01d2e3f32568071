// The opening of a queue.
ghost use Rattle.std.specs.Prelude.{IfOk, IfErr, IsErrOf};
ghost use Rattle.cq_disk.specs.Run.{Ran, OnlyReads};
ghost use Rattle.cq_folder.specs.Held.{as_read};
ghost use Rattle.cq_back_q.specs.declared.error.BackError.TheVariants.{Fault as back_fault};
ghost use Rattle.cq_back_q.specs.Names.{AreNamesOf};
ghost use Rattle.cq_back_q.specs.Found.{IsFoundOf};
ghost use Rattle.cq_back_q.specs.Read.{IsSoundOf, IsOpenedAt};
ghost use Rattle.cq_back_q.specs.Damage.{IfDamaged, IsDamaged};

use crate::error::BackError;
use crate::found::FoundQueue;
use crate::named::{open_indexes, open_stores};
use crate::reading::read_all;
use cq_disk::{Disk, Name};
use std::alloc::Global;

/// Opens the files of a queue, of which these are the names, and reads the present entries with their bodies, in order. It
/// only reads, and no shared file. All of the files is on the disk.
///
/// `Damaged` exactly where the queue's files aren't sound, whatever shared files there are. A small store without an index
/// holds nothing: it is opened too, and then left out.
pub fn open_queue<D: Disk>(
    alloc: Global,
    disk: &mut D,
    queue: u32,
    names: &[Name],
) -> Result<FoundQueue, BackError>
    requires names { D.tells → AreNamesOf queue (D.files disk.old) names.now }
    ensures found { IfOk result (IsFoundOf queue) }
    ensures sound { IfOk result (λ found. D.tells → IsSoundOf queue (as_read (D.files disk.old)) found) }
    ensures at { IfOk result (λ found. D.tells → IsOpenedAt queue found (D.files disk.new)) }
    ensures damaged { IfErr result (λ error. IfDamaged error (IsDamaged D.tells queue (as_read (D.files disk.old)))) }
    ensures reads { D.tells → OnlyReads D.Disk disk.old disk.new }
    ensures ran { Ran D.Disk disk.old disk.new (IsErrOf result back_fault) }
{
    let segments = open_indexes(alloc, disk, queue, names)?;
    let stores = open_stores(alloc, disk, queue, &segments, names)?;
    let taken = read_all(alloc, disk, queue, &segments, &stores)?;
    Ok(FoundQueue {
        segments,
        stores,
        held: taken.held,
        bodies: taken.bodies,
    })
}
