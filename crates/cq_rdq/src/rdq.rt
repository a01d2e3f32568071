// A shared file on a disk.
ghost use Rattle.std.specs.Prelude.{◌≡◌, ◌+◌, ◌≤◌, ◌<◌, ◌^◌, None, length, IfOk, IfErr, IsErr, IsErrOf, IsSome, OnOk, OnErr};
ghost use Rattle.cq_disk.specs.Files.{IsThere, Reads};
ghost use Rattle.cq_disk.specs.Run.{Ran, OnlyReads};
ghost use Rattle.cq_gate.specs.Calls.{Has, Makes, Touches};
ghost use Rattle.cq_gate.specs.Gate.{header_calls};
ghost use Rattle.cq_rdq.specs.Forms.{IfDamaged, StandFrom};
ghost use Rattle.cq_rdq.specs.Gates.{IsSharedGate};
ghost use Rattle.cq_rdq.specs.Opened.{IsMisread};
ghost use Rattle.cq_rdq.specs.Records.{shared_name, records_in, KeepsOrShelves, Records as AreRecords};
ghost use Rattle.cq_rdq.specs.declared.error.RdqError.TheVariants.{Fault as rdq_fault};

use crate::error::RdqError;
use crate::list;
use cq_block::{Block, RecordBatch};
use cq_disk::{Disk, Fault, Kind, Name};
use cq_gate::Gate;
use std::alloc::Global;

/// A shared file, open on a disk: blocks one after another behind the file's header, records and fillers.
///
/// Records join it at once, all of a batch or none, whatever a crash leaves. After a fault the value is given up, and
/// the file is opened again.
#[derive(Drop)]
pub struct Rdq {
    gate: Gate,
    number: u64,

    ghost gated: { IsSharedGate number gate },
}

impl Rdq {
    ghost use Rattle.cq_rdq.specs.Rdq.{name_of, number_of, end_of, len_of, IsRdq};
    ghost use Rattle.cq_rdq.specs.Calls.{Grows, HasAdded, IsDamaged, IsMade, IsNew, IsOpened, TakesMore};

    /// Makes the file, with no record.
    pub fn create<D: Disk>(disk: &mut D, number: u64) -> Result<Rdq, Fault>
        requires { D.tells → D.files disk.old (shared_name number) ≡ None }
        ensures shown { IfOk result (IsNew number) }
        ensures ok { IfOk result (λ rdq. D.tells → IsMade rdq (D.files disk.old) (D.files disk.new)) }
        // A crash at any moment leaves no file of this name, or an empty one.
        ensures makes { D.tells → Makes D.Disk (shared_name number) disk.old disk.new }
        ensures ran { Ran D.Disk disk.old disk.new (IsErr result) }
        ensures calls { OnOk result (D.moment disk.new ≡ D.moment disk.old + 1) }
    {
        let gate = Gate::create(disk, name(number))?;
        Ok(Rdq { gate, number })
    }

    /// Opens the file, which is there: reads its header and its content, and changes nothing.
    ///
    /// `Damaged` exactly where the file breaks a rule of the form: the header's, where it has more than 128 bytes; then
    /// that no plan is selected; then the chain's. The first place that does is told, and its byte: for a plan that is
    /// byte 8 of the selected slot. Where nothing of the file waits for a sync, it is as the value's own calls leave it.
    pub fn open<D: Disk>(alloc: Global, disk: &mut D, number: u64) -> Result<Rdq, RdqError>
        requires { D.tells → IsSome (D.files disk.old (shared_name number)) }
        ensures named { IfOk result (λ rdq. name_of rdq ≡ shared_name number) }
        ensures rdq { IfOk result (λ rdq. D.tells → IsThere (D.files disk.old (shared_name number)) (IsOpened rdq)) }
        ensures damaged { IfErr result (λ error. IfDamaged error (IsDamaged D.Disk (shared_name number) disk.old)) }
        ensures reads { D.tells → OnlyReads D.Disk disk.old disk.new }
        ensures ran { Ran D.Disk disk.old disk.new (IsErrOf result rdq_fault) }
    {
        let mut gate = Gate::open(disk, name(number))?;
        if gate.plan_len() != 0 {
            let (place, found) = list::plan_byte(&mut gate, disk)?;
            return Err(RdqError::Damaged { place, found });
        }
        list::records(alloc, &mut gate, disk)?;
        Ok(Rdq { gate, number })
    }

    /// Adds the records of a batch, and answers the place of its first byte, from the file's first byte. It takes no
    /// memory.
    ///
    /// The new end is below 2^63. Where the file has at most 128 bytes, no crash can leave more of it.
    pub fn add<D: Disk>(&mut self, disk: &mut D, batch: &RecordBatch) -> Result<u64, Fault>
        requires fits { end_of self.old + length batch.now.bytes < 2 ^ 63 }
        requires rdq { D.tells → TakesMore self.old (D.files disk.old (name_of self.old)) }
        ensures name { name_of self.new ≡ name_of self.old }
        ensures shown { IfOk result
            (λ place. (place ≡ end_of self.old) × Grows self.old self.new (length batch.now.bytes)) }
        ensures kept { OnErr result (self.new ≡ self.old) }
        ensures ok { OnOk result (D.tells → HasAdded D.Disk self.old self.new disk.old disk.new batch.now) }
        // A crash at any moment leaves the records as they were, or all of the batch with them.
        ensures touches { D.tells
            → Touches D.Disk (name_of self.old) disk.old disk.new (KeepsOrShelves (records_in batch.now)) }
        ensures ran { Ran D.Disk disk.old disk.new (IsErr result) }
        ensures calls { OnOk result (D.moment disk.new ≡ D.moment disk.old + (header_calls (len_of self.old) + 5)) }
    {
        self.gate.append(disk, batch.bytes())
    }

    /// The records of the file, without fillers, by rising place. It reads the content, and changes nothing.
    ///
    /// `Damaged` never comes where the disk tells its files: elsewhere the bytes that were read are no chain, and the
    /// first place that breaks it is told.
    pub fn entries<D: Disk>(&mut self, alloc: Global, disk: &mut D) -> Result<Vec<Block>, RdqError>
        requires { D.tells → IsThere (D.files disk.old (name_of self.old)) (IsRdq self.old) }
        ensures records { IfOk result
            (λ list. D.tells → Has D.Disk (name_of self.old) disk.old (λ f. AreRecords f.reads list.items)) }
        // Whether the disk tells its files or not.
        ensures stand { IfOk result (λ list. StandFrom 128 (end_of self.old) list.items) }
        ensures damaged { IfErr result (λ error. IfDamaged error (IsMisread D.tells (end_of self.old))) }
        ensures same { self.new ≡ self.old }
        ensures reads { D.tells → OnlyReads D.Disk disk.old disk.new }
        ensures ran { Ran D.Disk disk.old disk.new (IsErrOf result rdq_fault) }
    {
        list::records(alloc, &mut self.gate, disk)
    }

    /// Fills a buffer with the file's bytes from a place on. The range lies in the file.
    pub fn read<D: Disk>(&mut self, disk: &mut D, at: u64, into: &mut [u8]) -> Result<(), Fault>
        requires range { D.tells
            → IsThere (D.files disk.old (name_of self.old)) (λ f. at + length into.old ≤ length f.reads) }
        ensures bytes { OnOk result (D.tells → Reads (D.files disk.old (name_of self.old)) at into.new) }
        ensures same { self.new ≡ self.old }
        ensures reads { D.tells → OnlyReads D.Disk disk.old disk.new }
        ensures ran { Ran D.Disk disk.old disk.new (IsErr result) }
        ensures calls { OnOk result (D.moment disk.new ≡ D.moment disk.old + 1) }
    {
        self.gate.read(disk, at, into)
    }

    /// The number of the file.
    pub fn number(&self) -> u64
        ensures { result ≡ number_of self.now }
    {
        self.number
    }

    /// Where the content ends: 128 plus its length. At most 2^62.
    pub fn end(&self) -> u64
        ensures end { result ≡ end_of self.now }
        ensures low { 128 ≤ result }
        ensures high { result ≤ 2 ^ 62 }
    {
        self.gate.end()
    }

    /// The length of the file, as this value knows it. At most 2^62.
    pub fn len(&self) -> u64
        ensures len { result ≡ len_of self.now }
        ensures short { result ≤ 2 ^ 62 }
    {
        self.gate.len()
    }
}

/// The name of the file of a number.
fn name(number: u64) -> Name
    ensures { result ≡ shared_name number }
{
    Name {
        kind: Kind::Shared,
        queue: 0,
        number,
    }
}
