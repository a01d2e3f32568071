// The files of the queue on a disk.
ghost use Rattle.std.specs.Prelude.{◌≡◌, ◌≢◌, ◌<◌, ◌≤◌, ◌+◌, ◌-◌, ◌^◌, min, ℕ, List, [], length, All, OnOk, OnErr, IfOk, Some, None, true, false, if◌then◌else◌, IsErr};
ghost use Rattle.cq_disk.specs.declared.name.Name.{Name};
ghost use Rattle.cq_disk.specs.Files.{IsImage, IsThere, SameFiles};
ghost use Rattle.cq_memdisk.specs.Crash.{SameLeft};
ghost use Rattle.cq_disk.specs.Run.{Ran, LeavesOnly};
ghost use Rattle.cq_journal.specs.declared.event.Entry.{Entry as JournalEntry};
ghost use Rattle.cq_journal.specs.declared.event.Message.{Message};
ghost use Rattle.cq_journal.specs.Legal.{Legal};
ghost use Rattle.cq_folder.specs.Steady.{Steady};
ghost use Rattle.cq_folder.specs.Standing.{Standing};
ghost use Rattle.cq_entry.specs.Entry.{IsEntry};
ghost use Rattle.cq_gate.specs.Gate.{header_calls};
ghost use Rattle.cq_small.specs.Record.{HasRecord, StandsIn};
ghost use Rattle.cq_small.specs.Calls.{TakesMore};
ghost use Rattle.cq_small.specs.Store.{small_name, end_of, name_of as small_file, len_of as small_len, gate_of as small_gate, IsOpen as IsStoreOpen};
ghost use Rattle.cq_index.specs.Places.{index_name};
ghost use Rattle.cq_index.specs.Segments.{name_of, gate_of, count_of, present_of, reserved_of, len_of, IsOpen, IsFiled};
ghost use Rattle.cq_node.specs.Files.{append_calls, HasNoOther, HasFew, IsSmallFile, IsIndexFile};
ghost use Rattle.cq_node.specs.Agreeing.{StaysStanding, StaysSteady, WillCome, WillJoin, Joined};
ghost use Rattle.cq_back.specs.Folder.{no_sharing};
ghost use Rattle.cq_core.specs.Stored.{content_in};

use cq_disk::{Disk, Fault};
use cq_entry::Entry;
use cq_index::Segment;
use cq_memdisk::Crashable;
use cq_small::{SmallBatch, SmallStore};
use std::alloc::{AllocError, Global};

/// A disk and the two files of the queue on it. After a fault it makes no further call.
#[derive(Drop)]
pub(crate) struct QueueFiles<D: Disk> {
    pub(crate) disk: D,
    pub(crate) halted: bool,
    pub(crate) small: SmallStore,
    pub(crate) index: Segment,

    ghost small_filed: { halted ≡ false → IsSmallFile D.tells small (D.files disk (small_name 0 0)) },
    ghost index_filed: { halted ≡ false → IsIndexFile D.tells index (D.files disk (index_name 0 0)) },
    ghost alone: { D.tells → HasNoOther (D.files disk) },
}

impl<D: Disk> QueueFiles<D> {
    /// The two files of a disk that has no other, as they are open or not made yet.
    pub fn new(disk: D, small: SmallStore, index: Segment) -> QueueFiles<D>
        requires small { IsSmallFile D.tells small (D.files disk (small_name 0 0)) }
        requires index { IsIndexFile D.tells index (D.files disk (index_name 0 0)) }
        requires alone { D.tells → HasNoOther (D.files disk) }
        ensures disk { (result.disk ≡ disk) × (result.halted ≡ false) }
        ensures files { (result.small ≡ small) × (result.index ≡ index) }
    {
        QueueFiles {
            disk,
            halted: false,
            small,
            index,
        }
    }

    /// Where the next record will stand in the small store.
    pub fn base(&self) -> u64
        ensures end { result ≡ end_of self.now.small }
        ensures high { result ≤ 2 ^ 62 }
    {
        self.small.end()
    }

    /// Takes all the memory that adding so many entries needs.
    pub fn reserve(&mut self, count: usize) -> Result<(), AllocError>
        ensures reserved { OnOk result (count ≤ reserved_of self.new.index) }
        ensures same { (self.new.disk ≡ self.old.disk) × (self.new.halted ≡ self.old.halted) × (self.new.small ≡ self.old.small) × (gate_of self.new.index ≡ gate_of self.old.index) × (count_of self.new.index ≡ count_of self.old.index) × (present_of self.new.index ≡ present_of self.old.index) }
    {
        self.index.reserve(count)
    }

    /// Adds records to the small store and then their entries to the index, each by one gated append. A file that isn't
    /// there is made.
    pub fn commit(&mut self, records: &SmallBatch, entries: &[Entry]) -> Result<(), Fault>
        requires open { self.old.halted ≡ false }
        requires records { (0 < length records.now) × (length records.now ≤ 2 ^ 33) }
        requires entries { (0 < length entries.now) × All IsEntry entries.now }
        requires reserved { length entries.now ≤ reserved_of self.old.index }
        requires few { count_of self.old.index + length entries.now ≤ 4096 }
        ensures ok { OnOk result ((self.new.halted ≡ false) × (count_of self.new.index ≡ count_of self.old.index + length entries.now)) }
        ensures longer { OnOk result ((small_len self.old.small ≤ small_len self.new.small) × (end_of self.old.small + length records.now ≤ small_len self.new.small)) }
        // What stood in the small store stands there, and so does each record of the batch.
        ensures kept { OnOk result (D.tells → (place : ℕ) (body : List ℕ) → StandsIn (content_in (D.files self.old.disk (small_name 0 0))) place body → StandsIn (content_in (D.files self.new.disk (small_name 0 0))) place body) }
        ensures added { OnOk result (D.tells → (offset : ℕ) (body : List ℕ) → HasRecord records.now offset body → StandsIn (content_in (D.files self.new.disk (small_name 0 0))) (end_of self.old.small + offset) body) }
        // A crash at any moment leaves what agrees with the journal.
        ensures steady { D.tells → (past : List JournalEntry) (lines : ℕ → List Message) (ms : List Message) → Legal past → Standing (D.files self.old.disk) no_sharing past lines → WillJoin (D.files self.old.disk) (end_of self.old.small) records.now past lines entries.now ms → Steady (D.left self.old.disk) (D.moment self.old.disk) past → Steady (D.left self.new.disk) (D.moment self.new.disk) past }
        ensures stands { OnOk result (D.tells → (past : List JournalEntry) (lines : ℕ → List Message) (ms : List Message) → Legal past → WillJoin (D.files self.old.disk) (end_of self.old.small) records.now past lines entries.now ms → Joined (D.files self.old.disk) (D.files self.new.disk) past lines ms) }
        // Whatever a crash leaves of the index has at most so many more entries.
        ensures more { D.tells → (n : ℕ) → HasFew (D.files self.old.disk (index_name 0 0)) n → HasFew (D.files self.new.disk (index_name 0 0)) (n + length entries.now) }
        ensures err { OnErr result (self.new.halted ≡ true) }
        ensures calls { OnOk result (D.moment self.new.disk ≡ D.moment self.old.disk + (append_calls (small_gate self.old.small) + append_calls (gate_of self.old.index))) }
        ensures ran { Ran D.Disk self.old.disk self.new.disk (IsErr result) }
    {
        self.halted = true;
        add_records(&mut self.disk, &mut self.small, records)?;
        add_entries(&mut self.disk, &mut self.index, entries)?;
        self.halted = false;
        Ok(())
    }

    /// Fills a buffer with the body of the record that stands at a place of the small store, whose length is the buffer's.
    pub fn read(&mut self, place: u64, into: &mut [u8]) -> Result<(), Fault>
        requires open { self.old.halted ≡ false }
        requires within { place + length into.old + 5 ≤ small_len self.old.small }
        requires stands { D.tells → (body : List ℕ) × (length body ≡ length into.old) × StandsIn (content_in (D.files self.old.disk (small_name 0 0))) place body }
        ensures ok { OnOk result (self.new.halted ≡ false) }
        ensures same { (self.new.small ≡ self.old.small) × (self.new.index ≡ self.old.index) }
        ensures body { OnOk result (D.tells → StandsIn (content_in (D.files self.old.disk (small_name 0 0))) place into.new) }
        ensures files { D.tells → SameFiles (D.files self.old.disk) (D.files self.new.disk) }
        ensures any_moment { D.tells → LeavesOnly D.Disk self.old.disk self.new.disk (IsImage (D.files self.old.disk)) }
        ensures err { OnErr result (self.new.halted ≡ true) }
        ensures calls { OnOk result (D.moment self.new.disk ≡ D.moment self.old.disk + 1) }
        ensures ran { Ran D.Disk self.old.disk self.new.disk (IsErr result) }
    {
        self.halted = true;
        self.small.read(&mut self.disk, place, into)?;
        self.halted = false;
        Ok(())
    }
}

impl<D: Crashable> QueueFiles<D> {
    /// After this many further device calls each one fails. Nothing else changes.
    pub fn fuse(&mut self, calls: u64)
        ensures set { D.fuse self.new.disk ≡ Some (min (D.moment self.old.disk + calls) (2 ^ 64 - 1)) }
        ensures same { (self.new.halted ≡ self.old.halted) × (self.new.small ≡ self.old.small) × (self.new.index ≡ self.old.index) }
        ensures files { SameFiles (D.files self.old.disk) (D.files self.new.disk) }
        ensures left { SameLeft (D.left self.old.disk) (D.left self.new.disk) }
        ensures moment { D.moment self.new.disk ≡ D.moment self.old.disk }
        ensures faults { D.faults self.new.disk ≡ D.faults self.old.disk }
        ensures struck { D.struck self.new.disk ≡ D.struck self.old.disk }
        ensures planned { D.planned self.new.disk ≡ D.planned self.old.disk }
    {
        self.disk.fuse(calls);
    }
}

/// Adds records to the small store, whose file is made where it isn't there.
fn add_records<D: Disk>(
    disk: &mut D,
    small: &mut SmallStore,
    records: &SmallBatch,
) -> Result<(), Fault>
    requires some { 0 < length records.now }
    requires short { length records.now ≤ 2 ^ 33 }
    requires file { IsSmallFile D.tells small.old (D.files disk.old (small_name 0 0)) }
    ensures longer { OnOk result ((small_len small.old ≤ small_len small.new) × (end_of small.old + length records.now ≤ small_len small.new)) }
    ensures file { OnOk result (IsSmallFile D.tells small.new (D.files disk.new (small_name 0 0))) }
    ensures kept { OnOk result (D.tells → (place : ℕ) (body : List ℕ) → StandsIn (content_in (D.files disk.old (small_name 0 0))) place body → StandsIn (content_in (D.files disk.new (small_name 0 0))) place body) }
    ensures added { OnOk result (D.tells → (offset : ℕ) (body : List ℕ) → HasRecord records.now offset body → StandsIn (content_in (D.files disk.new (small_name 0 0))) (end_of small.old + offset) body) }
    ensures others { D.tells → (n : Name) → n ≢ small_name 0 0 → D.files disk.new n ≡ D.files disk.old n }
    ensures steady { D.tells → StaysSteady D.moment D.left D.files disk.old disk.new }
    ensures stands { OnOk result (D.tells → StaysStanding (D.files disk.old) (D.files disk.new)) }
    ensures calls { OnOk result (D.moment disk.new ≡ D.moment disk.old + append_calls (small_gate small.old)) }
    ensures ran { Ran D.Disk disk.old disk.new (IsErr result) }
{
    if !small.is_vacant() {
        return extend_small(disk, small, records);
    }
    small.make(disk)?;
    extend_small(disk, small, records)
}

/// Adds records to the small store, whose file is made.
fn extend_small<D: Disk>(
    disk: &mut D,
    small: &mut SmallStore,
    records: &SmallBatch,
) -> Result<(), Fault>
    requires some { 0 < length records.now }
    requires short { length records.now ≤ 2 ^ 33 }
    requires open { IsStoreOpen small.old }
    requires named { small_file small.old ≡ small_name 0 0 }
    requires store { D.tells → TakesMore small.old (D.files disk.old (small_name 0 0)) }
    ensures longer { OnOk result ((small_len small.old ≤ small_len small.new) × (end_of small.old + length records.now ≤ small_len small.new)) }
    ensures file { OnOk result (IsSmallFile D.tells small.new (D.files disk.new (small_name 0 0))) }
    ensures kept { OnOk result (D.tells → (place : ℕ) (body : List ℕ) → StandsIn (content_in (D.files disk.old (small_name 0 0))) place body → StandsIn (content_in (D.files disk.new (small_name 0 0))) place body) }
    ensures added { OnOk result (D.tells → (offset : ℕ) (body : List ℕ) → HasRecord records.now offset body → StandsIn (content_in (D.files disk.new (small_name 0 0))) (end_of small.old + offset) body) }
    ensures others { D.tells → (n : Name) → n ≢ small_name 0 0 → D.files disk.new n ≡ D.files disk.old n }
    ensures steady { D.tells → StaysSteady D.moment D.left D.files disk.old disk.new }
    ensures stands { OnOk result (D.tells → StaysStanding (D.files disk.old) (D.files disk.new)) }
    ensures calls { OnOk result (D.moment disk.new ≡ D.moment disk.old + (header_calls (small_len small.old) + 5)) }
    ensures ran { Ran D.Disk disk.old disk.new (IsErr result) }
{
    small.add(disk, records)?;
    Ok(())
}

/// Adds entries to the index, whose file is made where it isn't there.
fn add_entries<D: Disk>(disk: &mut D, index: &mut Segment, entries: &[Entry]) -> Result<(), Fault>
    requires file { IsIndexFile D.tells index.old (D.files disk.old (index_name 0 0)) }
    requires entries { (0 < length entries.now) × All IsEntry entries.now }
    requires reserved { length entries.now ≤ reserved_of index.old }
    requires few { count_of index.old + length entries.now ≤ 4096 }
    ensures file { OnOk result (IsIndexFile D.tells index.new (D.files disk.new (index_name 0 0))) }
    ensures count { OnOk result (count_of index.new ≡ count_of index.old + length entries.now) }
    ensures others { D.tells → (n : Name) → n ≢ index_name 0 0 → D.files disk.new n ≡ D.files disk.old n }
    ensures steady { D.tells → (past : List JournalEntry) (lines : ℕ → List Message) (ms : List Message) → Legal past → Standing (D.files disk.old) no_sharing past lines → WillCome (D.files disk.old) past lines entries.now ms → Steady (D.left disk.old) (D.moment disk.old) past → Steady (D.left disk.new) (D.moment disk.new) past }
    ensures stands { OnOk result (D.tells → (past : List JournalEntry) (lines : ℕ → List Message) (ms : List Message) → Legal past → WillCome (D.files disk.old) past lines entries.now ms → Joined (D.files disk.old) (D.files disk.new) past lines ms) }
    ensures more { D.tells → (n : ℕ) → HasFew (D.files disk.old (index_name 0 0)) n → HasFew (D.files disk.new (index_name 0 0)) (n + length entries.now) }
    ensures calls { OnOk result (D.moment disk.new ≡ D.moment disk.old + append_calls (gate_of index.old)) }
    ensures ran { Ran D.Disk disk.old disk.new (IsErr result) }
{
    if !index.is_vacant() {
        return extend_index(disk, index, entries);
    }
    index.create(disk)?;
    extend_index(disk, index, entries)
}

/// Adds entries to the index, whose file is made.
fn extend_index<D: Disk>(disk: &mut D, index: &mut Segment, entries: &[Entry]) -> Result<(), Fault>
    requires named { name_of index.old ≡ index_name 0 0 }
    requires open { IsOpen index.old }
    requires entries { (0 < length entries.now) × All IsEntry entries.now }
    requires reserved { length entries.now ≤ reserved_of index.old }
    requires few { count_of index.old + length entries.now ≤ 4096 }
    requires knows { D.tells → IsFiled index.old (D.files disk.old (index_name 0 0)) }
    requires bare { D.tells → len_of index.old ≤ 128 → IsThere (D.files disk.old (index_name 0 0)) (λ f. f.most ≤ 128) }
    ensures file { OnOk result (IsIndexFile D.tells index.new (D.files disk.new (index_name 0 0))) }
    ensures count { OnOk result (count_of index.new ≡ count_of index.old + length entries.now) }
    ensures others { D.tells → (n : Name) → n ≢ index_name 0 0 → D.files disk.new n ≡ D.files disk.old n }
    ensures steady { D.tells → (past : List JournalEntry) (lines : ℕ → List Message) (ms : List Message) → Legal past → Standing (D.files disk.old) no_sharing past lines → WillCome (D.files disk.old) past lines entries.now ms → Steady (D.left disk.old) (D.moment disk.old) past → Steady (D.left disk.new) (D.moment disk.new) past }
    ensures stands { OnOk result (D.tells → (past : List JournalEntry) (lines : ℕ → List Message) (ms : List Message) → Legal past → WillCome (D.files disk.old) past lines entries.now ms → Joined (D.files disk.old) (D.files disk.new) past lines ms) }
    ensures more { D.tells → (n : ℕ) → HasFew (D.files disk.old (index_name 0 0)) n → HasFew (D.files disk.new (index_name 0 0)) (n + length entries.now) }
    ensures calls { OnOk result (D.moment disk.new ≡ D.moment disk.old + (header_calls (len_of index.old) + 5)) }
    ensures ran { Ran D.Disk disk.old disk.new (IsErr result) }
{
    index.add(disk, entries)?;
    Ok(())
}
