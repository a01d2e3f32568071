// The present entries of a queue's segments, with their bodies.
ghost use Rattle.std.specs.Prelude.{IfOk, IfErr, IsErrOf};
ghost use Rattle.cq_disk.specs.Run.{Ran, OnlyReads};
ghost use Rattle.cq_folder.specs.Held.{as_read};
ghost use Rattle.cq_back_q.specs.declared.error.BackError.TheVariants.{Fault as back_fault};
ghost use Rattle.cq_folder.specs.Queue.{AreIndexes, AreStores};
ghost use Rattle.cq_back_q.specs.Found.{AreTaken};
ghost use Rattle.cq_back_q.specs.Read.{AreReadFiles, HaveStood};
ghost use Rattle.cq_back_q.specs.Damage.{IfDamaged, IsMisread};

use crate::error::BackError;
use crate::segment::read_segment;
use crate::taken::{Reader, Taken};
use cq_bulk::Bodies;
use cq_disk::Disk;
use cq_index::Segment;
use cq_small::SmallStore;
use std::alloc::Global;
use std::collections::BTreeSet;

/// Reads the present entries of a queue's segments with their bodies, by rising segment and place.
pub(crate) fn read_all<D: Disk>(
    alloc: Global,
    disk: &mut D,
    queue: u32,
    segments: &[Segment],
    stores: &[SmallStore],
) -> Result<Taken, BackError>
    requires indexes { AreIndexes queue segments.now }
    requires stores { AreStores queue segments.now stores.now }
    requires read { D.tells → AreReadFiles queue segments.now stores.now (D.files disk.old) }
    ensures taken { IfOk result (λ taken. AreTaken queue segments.now taken.held.items taken.bodies.items) }
    ensures stand { IfOk result
        (λ taken. D.tells → HaveStood (as_read (D.files disk.old)) taken.held.items taken.bodies.items) }
    ensures damaged { IfErr result (λ error. IfDamaged error (IsMisread D.tells queue (as_read (D.files disk.old)))) }
    ensures reads { D.tells → OnlyReads D.Disk disk.old disk.new }
    ensures ran { Ran D.Disk disk.old disk.new (IsErrOf result back_fault) }
{
    let mut reader = Reader {
        taken: Taken {
            held: Vec::new(alloc),
            bodies: Vec::new(alloc),
            ids: BTreeSet::new(alloc),
        },
        window: Bodies::new(alloc),
    };
    for index in 0..segments.len() {
        match read_segment(alloc, disk, queue, &segments[index], stores, &mut reader) {
            Ok(()) => {}
            Err(error) => return Err(error),
        }
    }
    Ok(reader.taken)
}
