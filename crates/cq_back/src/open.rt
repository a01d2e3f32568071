// The opening of a folder.
ghost use Rattle.std.specs.Prelude.{ℕ, List, ◌≡◌, ◌≤◌, ◌+◌, ◌*◌, ◌↔◌, length, true, false, Some, None, IfOk, IfErr, OnOk, IsErr, IsErrOf};
ghost use Rattle.std.specs.List.{AllByRecursion};
ghost use Rattle.cq_disk.specs.declared.name.Name.{Name};
ghost use Rattle.cq_disk.specs.Files.{HasFile, IsThere, IsImage, SameFiles};
ghost use Rattle.cq_disk.specs.Run.{Ran, LeavesOnly};
ghost use Rattle.cq_journal.specs.declared.event.Message.{Message};
ghost use Rattle.cq_journal.specs.History.{opened_in};
ghost use Rattle.cq_journal.specs.Legal.{AreLines};
ghost use Rattle.cq_folder.specs.Held.{as_read, contents_of, IsSettled};
ghost use Rattle.cq_folder.specs.Steady.{IsUnsound, SoundBy};
ghost use Rattle.cq_small.specs.Store.{name_of as store_name, len_of as store_len, IsVacant as IsStoreVacant, IsSmallStore};
ghost use Rattle.cq_index.specs.Codec.{entry_len, most_entries};
ghost use Rattle.cq_index.specs.Segments.{name_of, count_of, len_of, IsOpen, IsVacant, IsSegment};
ghost use Rattle.cq_folder.specs.Standing.{StillSound};
ghost use Rattle.cq_back.specs.declared.error.BackError.TheVariants.{Fault as back_fault};
ghost use Rattle.cq_back.specs.Cause.{HasCause};
ghost use Rattle.cq_back.specs.Folder.{index_file, small_file, IsOneQueue, ReadsSame, IsImageOrWithout, IsWithoutStray};
ghost use Rattle.cq_back.specs.Read.{AreHeld, AreMatched, AreTaken, AreWithin, IfDamaged};
ghost use Rattle.cq_back.specs.Found.{BreaksFolder};
ghost use Rattle.cq_back.specs.Opens.{FindsMessages, FoundLines, FindsFiles, Refuses, KeepsFolder};

use crate::error::BackError;
use crate::files::{INDEX, SMALL, open_index, open_small};
use crate::found::FoundQueue;
use crate::messages::read_messages;
use crate::sync::sync_all;
use cq_disk::{Disk, Fault};
use cq_small::SmallStore;
use std::alloc::Global;

/// Opens a folder that has at most the two files of one segment of queue 0: syncs every file, reads the segment, its small
/// store and each message, and removes a small store whose index isn't there.
///
/// `Damaged` tells the first rule that the folder breaks; then it isn't sound, if no shared file is there: shared messages aren't
/// served, and a present entry of one is refused. Until then it only syncs and reads.
pub fn open_folder<D: Disk>(alloc: Global, disk: &mut D) -> Result<FoundQueue, BackError>
    ensures messages { IfOk result (FindsMessages D.Disk disk.old disk.new) }
    ensures lines { IfOk result FoundLines }
    ensures files { IfOk result (FindsFiles D.Disk disk.old disk.new) }
    ensures refuses { IfErr result (Refuses D.Disk disk.old disk.new) }
    ensures keeps { KeepsFolder D.Disk disk.old disk.new }
    ensures ran { Ran D.Disk disk.old disk.new (IsErrOf result back_fault) }
{
    open_queue(alloc, disk)
}

/// Syncs every file, reads the queue's files, and removes a stray small store.
fn open_queue<D: Disk>(alloc: Global, disk: &mut D) -> Result<FoundQueue, BackError>
    ensures ok { IfOk result (λ found. D.tells → IsOneQueue (D.files disk.old) → SoundBy (as_read (D.files disk.old)) (λ q. opened_in q found.lines)) }
    ensures now { IfOk result (λ found. D.tells → IsOneQueue (D.files disk.old) → SoundBy (as_read (D.files disk.new)) (λ q. opened_in q found.lines)) }
    ensures held { IfOk result (λ found. D.tells → AreHeld (as_read (D.files disk.old)) found.held.items found.lines) }
    ensures held_now { IfOk result (λ found. D.tells → AreHeld (as_read (D.files disk.new)) found.held.items found.lines) }
    ensures taken { IfOk result (λ found. AreTaken (count_of found.segment) found.held.items found.lines) }
    ensures within { IfOk result (λ found. AreWithin (store_len found.small) found.held.items) }
    ensures settled { OnOk result (D.tells → (n : Name) → IsSettled (D.files disk.new n)) }
    ensures name { IfOk result (λ found. name_of found.segment ≡ index_file) }
    ensures small_name { IfOk result (λ found. store_name found.small ≡ small_file) }
    ensures count { IfOk result (λ found. D.tells → length (contents_of (as_read (D.files disk.old)) index_file) ≡ entry_len * count_of found.segment) }
    ensures segment { IfOk result (λ found. D.tells → IsSegment found.segment (D.files disk.new index_file)) }
    ensures small { IfOk result (λ found. D.tells → IsSmallStore found.small (D.files disk.new small_file)) }
    ensures damaged { IfErr result (λ error. IfDamaged error (λ name place found. D.tells → BreaksFolder (as_read (D.files disk.old)) name place found)) }
    ensures cause { IfErr result (λ error. IfDamaged error HasCause) }
    ensures reads { IfErr result (λ error. D.tells → (error ≡ back_fault → ⊥) → ReadsSame (D.files disk.old) (D.files disk.new)) }
    ensures only_reads { IfErr result (λ error. D.tells → (error ≡ back_fault → ⊥) → LeavesOnly D.Disk disk.old disk.new (IsImage (D.files disk.old))) }
    ensures unsound { IfErr result (λ error. D.tells → IsOneQueue (D.files disk.old) → IsUnsound (as_read (D.files disk.old)) → LeavesOnly D.Disk disk.old disk.new (IsImage (D.files disk.old))) }
    ensures no_new { D.tells → (n : Name) → D.files disk.old n ≡ None → D.files disk.new n ≡ None }
    ensures any_moment { D.tells → LeavesOnly D.Disk disk.old disk.new (IsImageOrWithout (D.files disk.old)) }
    ensures ran { Ran D.Disk disk.old disk.new (IsErrOf result back_fault) }
{
    let names = match sync_all(alloc, disk) {
        Ok(names) => names,
        Err(error) => return Err(error),
    };
    let index = names.contains(&INDEX);
    let store = names.contains(&SMALL);
    let mut found = match read_queue(alloc, disk, index, store) {
        Ok(found) => found,
        Err(error) => return Err(error),
    };
    match drop_stray(disk, &mut found) {
        Ok(()) => Ok(found),
        Err(Fault) => Err(BackError::Fault),
    }
}

/// Reads the segment and the small store, of which it is told whether they are there, and each message.
fn read_queue<D: Disk>(
    alloc: Global,
    disk: &mut D,
    index: bool,
    store: bool,
) -> Result<FoundQueue, BackError>
    requires index { D.tells → (index ≡ true) ↔ HasFile (D.files disk.old index_file) }
    requires store { D.tells → (store ≡ true) ↔ HasFile (D.files disk.old small_file) }
    requires settled { D.tells → (n : Name) → IsSettled (D.files disk.old n) }
    ensures sound { IfOk result (λ found. D.tells → IsOneQueue (D.files disk.old) → SoundBy (as_read (D.files disk.old)) (λ q. opened_in q found.lines)) }
    ensures held { IfOk result (λ found. D.tells → AreHeld (as_read (D.files disk.old)) found.held.items found.lines) }
    ensures taken { IfOk result (λ found. AreTaken (count_of found.segment) found.held.items found.lines) }
    ensures within { IfOk result (λ found. AreWithin (store_len found.small) found.held.items) }
    ensures name { IfOk result (λ found. name_of found.segment ≡ index_file) }
    ensures small_name { IfOk result (λ found. store_name found.small ≡ small_file) }
    ensures count { IfOk result (λ found. D.tells → length (contents_of (as_read (D.files disk.old)) index_file) ≡ entry_len * count_of found.segment) }
    ensures segment { IfOk result (λ found. D.tells → IsSegment found.segment (D.files disk.old index_file)) }
    ensures small { IfOk result (λ found. D.tells → IsSmallStore found.small (D.files disk.old small_file)) }
    ensures damaged { IfErr result (λ error. IfDamaged error (λ name place found. D.tells → BreaksFolder (as_read (D.files disk.old)) name place found)) }
    ensures cause { IfErr result (λ error. IfDamaged error HasCause) }
    ensures files { D.tells → SameFiles (D.files disk.old) (D.files disk.new) }
    ensures any_moment { D.tells → LeavesOnly D.Disk disk.old disk.new (IsImage (D.files disk.old)) }
    ensures ran { Ran D.Disk disk.old disk.new (IsErrOf result back_fault) }
{
    let mut segment = match open_index(alloc, disk, index) {
        Ok(segment) => segment,
        Err(error) => return Err(error),
    };
    let mut small = match open_small(disk, store) {
        Ok(small) => small,
        Err(error) => return Err(error),
    };
    match read_messages(alloc, disk, &mut segment, &mut small) {
        Ok((held, lines)) => Ok(FoundQueue {
            segment,
            small,
            held,
            lines,
        }),
        Err(error) => Err(error),
    }
}

/// Removes the small store where its index isn't there.
fn drop_stray<D: Disk>(disk: &mut D, found: &mut FoundQueue) -> Result<(), Fault>
    requires index { D.tells → IsVacant found.old.segment → D.files disk.old index_file ≡ None }
    requires small_name { store_name found.old.small ≡ small_file }
    requires small { D.tells → IsSmallStore found.old.small (D.files disk.old small_file) }
    ensures ok { OnOk result (D.tells → IsWithoutStray (D.files disk.old) (D.files disk.new)) }
    ensures small { OnOk result (D.tells → IsSmallStore found.new.small (D.files disk.new small_file)) }
    ensures same { (found.new.segment ≡ found.old.segment) × (found.new.held ≡ found.old.held) × (found.new.lines ≡ found.old.lines) × (store_name found.new.small ≡ small_file) }
    ensures stays { (IsVacant found.old.segment → ⊥) → found.new.small ≡ found.old.small }
    ensures gone { OnOk result (IsVacant found.old.segment → IsStoreVacant found.new.small) }
    ensures no_new { D.tells → (n : Name) → D.files disk.old n ≡ None → D.files disk.new n ≡ None }
    ensures any_moment { D.tells → LeavesOnly D.Disk disk.old disk.new (IsImageOrWithout (D.files disk.old)) }
    ensures ran { Ran D.Disk disk.old disk.new (IsErr result) }
{
    if !found.segment.is_vacant() || found.small.is_vacant() {
        return Ok(());
    }
    disk.remove(SMALL)?;
    found.small = SmallStore::vacant(0, 0);
    Ok(())
}
