// Records and entries that join a segment.
ghost use Rattle.std.specs.Prelude.{◌≡◌, ◌+◌, ◌≤◌, ◌<◌, ◌^◌, [], length, OnOk, IsErr};
ghost use Rattle.cq_disk.specs.Run.{Ran};
ghost use Rattle.cq_small.specs.Store.{IsOpen as IsSmallOpen};
ghost use Rattle.cq_queue.specs.Files.{some_calls};

use crate::QueueSegment;
use cq_disk::{Disk, Fault};
use cq_entry::Entry;
use cq_small::SmallBatch;

impl QueueSegment {
    ghost use Rattle.cq_queue.specs.QueueSegment.{CanCommit, CanGrow, Commits, HasCommitted, HasIndex, HasListed, HasRecorded, HasSmall, IsLonger, IsMore, IsOpen, KnowsFiles, ListsOnly, SameContent, SameIndex, SameNumber, SameSmall, TouchesOnly, commit_calls, index_calls, index_file, small_calls, small_file};

    /// Adds the records of small messages to the small store, where there are any, and then the entries of all to the
    /// index, each by one gated append. A file that isn't there is made. It takes no memory.
    ///
    /// The segment is the queue's greatest. It has at most 4096 entries afterwards; at least one is added, and as many
    /// were reserved since the last call.
    pub fn commit<D: Disk>(
        &mut self,
        disk: &mut D,
        records: &SmallBatch,
        entries: &[Entry],
    ) -> Result<(), Fault>
        requires batch { CanCommit self.old records.now entries.now }
        requires knows { D.tells → CanGrow self.old (D.files disk.old) }
        ensures same { SameNumber self.old self.new }
        ensures shown { OnOk result (IsMore self.old self.new (length entries.now) (length records.now)) }
        ensures knows { OnOk result (D.tells → KnowsFiles self.new (D.files disk.new)) }
        ensures ok { OnOk result
            (D.tells → HasCommitted D.Disk self.old disk.old disk.new records.now entries.now) }
        ensures touches { D.tells → Commits D.Disk self.old disk.old disk.new records.now entries.now }
        ensures ran { Ran D.Disk disk.old disk.new (IsErr result) }
        ensures calls { OnOk result (D.moment disk.new ≡ D.moment disk.old + commit_calls self.old records.now) }
    {
        self.add_records(disk, records)?;
        self.add_entries(disk, entries)
    }

    /// Adds records to the small store, where there are any.
    fn add_records<D: Disk>(&mut self, disk: &mut D, records: &SmallBatch) -> Result<(), Fault>
        requires short { length records.now ≤ 2 ^ 33 }
        requires knows { D.tells → KnowsFiles self.old (D.files disk.old) }
        ensures same { SameIndex self.old self.new }
        ensures shown { OnOk result (IsLonger self.old self.new (length records.now)) }
        ensures knows { OnOk result (D.tells → KnowsFiles self.new (D.files disk.new)) }
        ensures ok { OnOk result (D.tells → HasRecorded D.Disk self.old disk.old disk.new records.now) }
        ensures touches { D.tells → TouchesOnly D.Disk (small_file self.old) disk.old disk.new }
        ensures ran { Ran D.Disk disk.old disk.new (IsErr result) }
        ensures calls { OnOk result
            (D.moment disk.new ≡ D.moment disk.old + some_calls records.now (small_calls self.old)) }
    {
        if records.bytes().is_empty() {
            return Ok(());
        }
        self.append_records(disk, records)
    }

    /// Adds some records to the small store.
    fn append_records<D: Disk>(&mut self, disk: &mut D, records: &SmallBatch) -> Result<(), Fault>
        requires some { 0 < length records.now }
        requires short { length records.now ≤ 2 ^ 33 }
        requires knows { D.tells → KnowsFiles self.old (D.files disk.old) }
        ensures same { SameIndex self.old self.new }
        ensures shown { OnOk result (IsLonger self.old self.new (length records.now)) }
        ensures knows { OnOk result (D.tells → KnowsFiles self.new (D.files disk.new)) }
        ensures ok { OnOk result (D.tells → HasRecorded D.Disk self.old disk.old disk.new records.now) }
        ensures touches { D.tells → TouchesOnly D.Disk (small_file self.old) disk.old disk.new }
        ensures ran { Ran D.Disk disk.old disk.new (IsErr result) }
        ensures calls { OnOk result (D.moment disk.new ≡ D.moment disk.old + small_calls self.old) }
    {
        self.make_small(disk)?;
        self.extend_small(disk, records)
    }

    /// Makes the small store's file, where it isn't there.
    fn make_small<D: Disk>(&mut self, disk: &mut D) -> Result<(), Fault>
        requires knows { D.tells → KnowsFiles self.old (D.files disk.old) }
        ensures same { SameIndex self.old self.new }
        ensures shown { OnOk result (HasSmall self.old self.new) }
        ensures knows { OnOk result (D.tells → KnowsFiles self.new (D.files disk.new)) }
        ensures ok { OnOk result (D.tells → SameContent D.Disk (small_file self.old) disk.old disk.new) }
        ensures touches { D.tells → TouchesOnly D.Disk (small_file self.old) disk.old disk.new }
        ensures ran { Ran D.Disk disk.old disk.new (IsErr result) }
        ensures calls { OnOk result
            (D.moment disk.new + small_calls self.new ≡ D.moment disk.old + small_calls self.old) }
    {
        if !self.small.is_vacant() {
            return Ok(());
        }
        self.small.make(disk)
    }

    /// Adds some records to the small store, whose file is made.
    fn extend_small<D: Disk>(&mut self, disk: &mut D, records: &SmallBatch) -> Result<(), Fault>
        requires some { 0 < length records.now }
        requires short { length records.now ≤ 2 ^ 33 }
        requires small { IsSmallOpen self.old.small }
        requires knows { D.tells → KnowsFiles self.old (D.files disk.old) }
        ensures same { SameIndex self.old self.new }
        ensures shown { OnOk result (IsLonger self.old self.new (length records.now)) }
        ensures knows { OnOk result (D.tells → KnowsFiles self.new (D.files disk.new)) }
        ensures ok { OnOk result (D.tells → HasRecorded D.Disk self.old disk.old disk.new records.now) }
        ensures touches { D.tells → TouchesOnly D.Disk (small_file self.old) disk.old disk.new }
        ensures ran { Ran D.Disk disk.old disk.new (IsErr result) }
        ensures calls { OnOk result (D.moment disk.new ≡ D.moment disk.old + small_calls self.old) }
    {
        self.small.add(disk, records)?;
        Ok(())
    }

    /// Adds entries to the index.
    fn add_entries<D: Disk>(&mut self, disk: &mut D, entries: &[Entry]) -> Result<(), Fault>
        requires batch { CanCommit self.old [] entries.now }
        requires knows { D.tells → KnowsFiles self.old (D.files disk.old) }
        ensures same { SameSmall self.old self.new }
        ensures shown { OnOk result (IsMore self.old self.new (length entries.now) 0) }
        ensures knows { OnOk result (D.tells → KnowsFiles self.new (D.files disk.new)) }
        ensures ok { OnOk result (D.tells → HasListed D.Disk self.old disk.old disk.new entries.now) }
        ensures touches { D.tells → ListsOnly D.Disk self.old disk.old disk.new entries.now }
        ensures ran { Ran D.Disk disk.old disk.new (IsErr result) }
        ensures calls { OnOk result (D.moment disk.new ≡ D.moment disk.old + index_calls self.old) }
    {
        self.make_index(disk)?;
        self.extend_index(disk, entries)
    }

    /// Makes the index's file, where it isn't there.
    fn make_index<D: Disk>(&mut self, disk: &mut D) -> Result<(), Fault>
        requires knows { D.tells → KnowsFiles self.old (D.files disk.old) }
        ensures same { SameSmall self.old self.new }
        ensures shown { OnOk result (HasIndex self.old self.new) }
        ensures knows { OnOk result (D.tells → KnowsFiles self.new (D.files disk.new)) }
        ensures ok { OnOk result (D.tells → SameContent D.Disk (index_file self.old) disk.old disk.new) }
        ensures touches { D.tells → TouchesOnly D.Disk (index_file self.old) disk.old disk.new }
        ensures ran { Ran D.Disk disk.old disk.new (IsErr result) }
        ensures calls { OnOk result
            (D.moment disk.new + index_calls self.new ≡ D.moment disk.old + index_calls self.old) }
    {
        if !self.index.is_vacant() {
            return Ok(());
        }
        self.index.create(disk)
    }

    /// Adds entries to the index, whose file is made.
    fn extend_index<D: Disk>(&mut self, disk: &mut D, entries: &[Entry]) -> Result<(), Fault>
        requires made { IsOpen self.old }
        requires batch { CanCommit self.old [] entries.now }
        requires knows { D.tells → KnowsFiles self.old (D.files disk.old) }
        ensures same { SameSmall self.old self.new }
        ensures shown { OnOk result (IsMore self.old self.new (length entries.now) 0) }
        ensures knows { OnOk result (D.tells → KnowsFiles self.new (D.files disk.new)) }
        ensures ok { OnOk result (D.tells → HasListed D.Disk self.old disk.old disk.new entries.now) }
        ensures touches { D.tells → ListsOnly D.Disk self.old disk.old disk.new entries.now }
        ensures ran { Ran D.Disk disk.old disk.new (IsErr result) }
        ensures calls { OnOk result (D.moment disk.new ≡ D.moment disk.old + index_calls self.old) }
    {
        self.index.add(disk, entries)?;
        Ok(())
    }
}
