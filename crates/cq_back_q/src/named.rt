// The files of a queue, opened by their names.
ghost use Rattle.std.specs.Prelude.{◌≡◌, IfOk, IfErr, IsErrOf, filter, map};
ghost use Rattle.std.specs.List.{AllByRecursion};
ghost use Rattle.cq_disk.specs.Run.{Ran, OnlyReads};
ghost use Rattle.cq_small.specs.Store as small;
ghost use Rattle.cq_index.specs.Places.{index_name};
ghost use Rattle.cq_index.specs.Segments as index;
ghost use Rattle.cq_folder.specs.Held.{as_read};
ghost use Rattle.cq_folder.specs.Queue.{AreIndexes, AreStores, has_number, indexes_of, stores_of};
ghost use Rattle.cq_back_q.specs.declared.error.BackError.TheVariants.{Fault as back_fault};
ghost use Rattle.cq_back_q.specs.Names.{AreNamesOf};
ghost use Rattle.cq_back_q.specs.Numbers.{Rise, numbers_in};
ghost use Rattle.cq_back_q.specs.Numbered.{AreThere, HaveRead, IsReadIndex};
ghost use Rattle.cq_back_q.specs.Read.{AreReadIndexes, AreReadStores};
ghost use Rattle.cq_back_q.specs.Damage.{IfDamaged, IsDamaged};

use crate::error::BackError;
use crate::files::{open_index, open_small};
use crate::numbers::numbers_of;
use cq_disk::{Disk, Kind, Name};
use cq_index::Segment;
use cq_small::SmallStore;
use std::alloc::Global;

/// Opens the indexes among a queue's files, by rising number.
pub(crate) fn open_indexes<D: Disk>(
    alloc: Global,
    disk: &mut D,
    queue: u32,
    names: &[Name],
) -> Result<Vec<Segment>, BackError>
    requires names { D.tells → AreNamesOf queue (D.files disk.old) names.now }
    ensures indexes { IfOk result (λ segments. AreIndexes queue segments.items) }
    ensures read { IfOk result (λ segments. D.tells → AreReadIndexes queue segments.items (D.files disk.old)) }
    ensures damaged { IfErr result (λ error. IfDamaged error (IsDamaged D.tells queue (as_read (D.files disk.old)))) }
    ensures reads { D.tells → OnlyReads D.Disk disk.old disk.new }
    ensures ran { Ran D.Disk disk.old disk.new (IsErrOf result back_fault) }
{
    let numbers = numbers_of(alloc, Kind::Index, queue, names)?;
    indexes_at(alloc, disk, queue, &numbers)
}

/// Opens the small stores among a queue's files, by rising number, and hands out those of these segments.
pub(crate) fn open_stores<D: Disk>(
    alloc: Global,
    disk: &mut D,
    queue: u32,
    segments: &[Segment],
    names: &[Name],
) -> Result<Vec<SmallStore>, BackError>
    requires names { D.tells → AreNamesOf queue (D.files disk.old) names.now }
    requires indexes { AreIndexes queue segments.now }
    ensures stores { IfOk result (λ stores. AreStores queue segments.now stores.items) }
    ensures read { IfOk result (λ stores. D.tells → AreReadStores queue segments.now stores.items (D.files disk.old)) }
    ensures damaged { IfErr result (λ error. IfDamaged error (IsDamaged D.tells queue (as_read (D.files disk.old)))) }
    ensures reads { D.tells → OnlyReads D.Disk disk.old disk.new }
    ensures ran { Ran D.Disk disk.old disk.new (IsErrOf result back_fault) }
{
    let numbers = numbers_of(alloc, Kind::Small, queue, names)?;
    stores_at(alloc, disk, queue, segments, &numbers)
}

/// Opens the indexes of these numbers.
fn indexes_at<D: Disk>(
    alloc: Global,
    disk: &mut D,
    queue: u32,
    numbers: &[u64],
) -> Result<Vec<Segment>, BackError>
    requires there { D.tells → AreThere (index_name queue) (D.files disk.old) numbers.now }
    ensures named { IfOk result (λ segments. indexes_of segments.items ≡ map (index_name queue) numbers.now) }
    ensures are_open { IfOk result (λ segments. AllByRecursion index.IsOpen segments.items) }
    ensures read { IfOk result (λ segments. D.tells → AllByRecursion (IsReadIndex (D.files disk.old)) segments.items) }
    ensures damaged { IfErr result (λ error. IfDamaged error (IsDamaged D.tells queue (as_read (D.files disk.old)))) }
    ensures reads { D.tells → OnlyReads D.Disk disk.old disk.new }
    ensures ran { Ran D.Disk disk.old disk.new (IsErrOf result back_fault) }
{
    let mut segments = Vec::new(alloc);
    for number in numbers {
        segments.reserve(1)?;
        match open_index(alloc, disk, queue, *number) {
            Ok(segment) => segments.push_reserved(segment),
            Err(error) => return Err(error),
        }
    }
    Ok(segments)
}

/// Opens the small stores of these numbers, and keeps those of these segments.
fn stores_at<D: Disk>(
    alloc: Global,
    disk: &mut D,
    queue: u32,
    segments: &[Segment],
    numbers: &[u64],
) -> Result<Vec<SmallStore>, BackError>
    requires there { D.tells → AreThere (small.small_name queue) (D.files disk.old) numbers.now }
    requires rise { Rise (numbers_in (indexes_of segments.now)) }
    ensures named { IfOk result (λ stores. stores_of stores.items
        ≡ map (small.small_name queue) (filter (has_number (indexes_of segments.now)) numbers.now)) }
    ensures are_open { IfOk result (λ stores. AllByRecursion small.IsOpen stores.items) }
    ensures read { IfOk result (λ stores. D.tells → HaveRead queue (D.files disk.old) numbers.now stores.items) }
    ensures damaged { IfErr result (λ error. IfDamaged error (IsDamaged D.tells queue (as_read (D.files disk.old)))) }
    ensures reads { D.tells → OnlyReads D.Disk disk.old disk.new }
    ensures ran { Ran D.Disk disk.old disk.new (IsErrOf result back_fault) }
{
    let mut stores = Vec::new(alloc);
    for number in numbers {
        stores.reserve(1)?;
        match open_small(disk, queue, *number) {
            Ok(store) => {
                if has_segment(segments, *number) {
                    stores.push_reserved(store);
                }
            }
            Err(error) => return Err(error),
        }
    }
    Ok(stores)
}

/// Whether one of these segments, which rise by number, has this one.
fn has_segment(segments: &[Segment], number: u64) -> bool
    requires { Rise (numbers_in (indexes_of segments.now)) }
    ensures { result ≡ has_number (indexes_of segments.now) number }
{
    segments
        .binary_search_by_key(&number, |segment| segment.number())
        .is_ok()
}
