// The small messages of one segment of a queue.
ghost use Rattle.std.specs.Prelude.{◌≡◌, ◌≢◌, ◌↔◌, ◌+◌, ◌≤◌, ◌<◌, ◌^◌, ℕ, List, Some, None, length, max, slice_index, true, IfOk, IfErr, IsSome, OnOk, IsErr, IsErrOf};
ghost use Rattle.std.specs.Int.{w32};
ghost use Rattle.cq_bytes.specs.Field.{number_at};
ghost use Rattle.cq_disk.specs.declared.name.Name.{Name};
ghost use Rattle.cq_disk.specs.declared.name.Kind.TheVariants.{Small};
ghost use Rattle.cq_disk.specs.Files.{IsThere};
ghost use Rattle.cq_disk.specs.Run.{Ran, OnlyReads};
ghost use Rattle.cq_gate.specs.declared.gate.Gate.{Gate};
ghost use Rattle.cq_gate.specs.declared.error.GateError.TheVariants.{Fault as gate_fault, Damaged};
ghost use Rattle.cq_gate.specs.Calls.{Has, IsDamaged, Makes, Touches};
ghost use Rattle.cq_gate.specs.Gated.{KeepsOrAdds};
ghost use Rattle.cq_gate.specs.Gate.{IfDamaged, IsGate, header_calls, name_of as gate_name};
ghost use Rattle.cq_small.specs.Gates.{IsSmallGate};
ghost use Rattle.cq_small.specs.Record.{IsWhole, StandsAt};

use crate::batch::SmallBatch;
use cq_disk::{Disk, Fault, Kind, Name};
use cq_gate::{Gate, GateError, HEADER_LEN};

/// The small store of one segment of a queue, open on a disk or not made yet: records one after another behind the
/// file's header.
///
/// Records join it at once, all of a batch or none, whatever a crash leaves. After a fault the value is given up, and
/// the file is opened again.
#[derive(Drop)]
pub struct SmallStore {
    name: Name,
    gate: Option<Gate>,

    ghost small: { name.kind ≡ Small },
    ghost gated: { (g : Gate) → gate ≡ Some g → IsSmallGate name g },
}

impl SmallStore {
    ghost use Rattle.cq_small.specs.Store.{small_name, name_of, end_of, len_of, IsVacant, IsOpen, IsSmallStore};
    ghost use Rattle.cq_small.specs.Calls.{Grows, HasAdded, IsMade, IsNew, IsOpened, TakesMore};

    /// A store whose file isn't there yet. It makes no call of a disk.
    pub fn vacant(queue: u32, number: u64) -> SmallStore
        ensures name { name_of result ≡ small_name queue number }
        ensures vacant { IsVacant result }
    {
        SmallStore {
            name: name(queue, number),
            gate: None,
        }
    }

    /// Makes the file of a vacant store, with no record.
    pub fn make<D: Disk>(&mut self, disk: &mut D) -> Result<(), Fault>
        requires vacant { IsVacant self.old }
        requires absent { D.tells → D.files disk.old (name_of self.old) ≡ None }
        ensures name { name_of self.new ≡ name_of self.old }
        ensures shown { OnOk result (IsNew self.new) }
        ensures ok { OnOk result (D.tells → IsMade self.new (D.files disk.old) (D.files disk.new)) }
        // A crash at any moment leaves no file of this name, or an empty one.
        ensures makes { D.tells → Makes D.Disk (name_of self.old) disk.old disk.new }
        ensures ran { Ran D.Disk disk.old disk.new (IsErr result) }
        ensures calls { OnOk result (D.moment disk.new ≡ D.moment disk.old + 1) }
    {
        let gate = Gate::create(disk, self.name)?;
        self.gate = Some(gate);
        Ok(())
    }

    /// Makes the file, with no record.
    pub fn create<D: Disk>(disk: &mut D, queue: u32, number: u64) -> Result<SmallStore, Fault>
        requires { D.tells → D.files disk.old (small_name queue number) ≡ None }
        ensures name { IfOk result (λ store. name_of store ≡ small_name queue number) }
        ensures shown { IfOk result IsNew }
        ensures ok { IfOk result (λ store. D.tells → IsMade store (D.files disk.old) (D.files disk.new)) }
        // A crash at any moment leaves no file of this name, or an empty one.
        ensures makes { D.tells → Makes D.Disk (small_name queue number) disk.old disk.new }
        ensures ran { Ran D.Disk disk.old disk.new (IsErr result) }
        ensures calls { OnOk result (D.moment disk.new ≡ D.moment disk.old + 1) }
    {
        let mut store = SmallStore::vacant(queue, number);
        store.make(disk)?;
        Ok(store)
    }

    /// Opens the file, which is there.
    ///
    /// `Damaged` exactly where it has more than 128 bytes and its header breaks a rule of the form: the first place that
    /// does, and its byte. Where nothing of the file waits for a sync, the store knows it.
    pub fn open<D: Disk>(disk: &mut D, queue: u32, number: u64) -> Result<SmallStore, GateError>
        requires { D.tells → IsSome (D.files disk.old (small_name queue number)) }
        ensures name { IfOk result (λ store. name_of store ≡ small_name queue number) }
        ensures is_open { IfOk result IsOpen }
        ensures store { IfOk result
            (λ store. D.tells → IsThere (D.files disk.new (small_name queue number)) (IsOpened store)) }
        ensures damaged { IfErr result (λ error. IfDamaged error (IsDamaged D.Disk (small_name queue number) disk.old)) }
        ensures reads { D.tells → OnlyReads D.Disk disk.old disk.new }
        ensures ran { Ran D.Disk disk.old disk.new (IsErrOf result gate_fault) }
    {
        let name = name(queue, number);
        let gate = Gate::open(disk, name)?;
        Ok(SmallStore {
            name,
            gate: Some(gate),
        })
    }

    /// Adds the records of a batch, and answers the place of its first byte, from the file's first byte.
    ///
    /// The store isn't vacant, and the new end is below 2^63. Where the file has at most 128 bytes, no crash can leave
    /// more of it.
    pub fn add<D: Disk>(&mut self, disk: &mut D, batch: &SmallBatch) -> Result<u64, Fault>
        requires fits { IsOpen self.old × (end_of self.old + length batch.now < 2 ^ 63) }
        requires store { D.tells → TakesMore self.old (D.files disk.old (name_of self.old)) }
        ensures name { name_of self.new ≡ name_of self.old }
        ensures shown { IfOk result (λ place. (place ≡ end_of self.old) × Grows self.old self.new (length batch.now)) }
        ensures ok { OnOk result (D.tells → HasAdded D.Disk self.old self.new disk.old disk.new batch.now) }
        // A crash at any moment leaves the records as they were, or all of the batch with them.
        ensures touches { D.tells → Touches D.Disk (name_of self.old) disk.old disk.new (KeepsOrAdds 2 batch.now) }
        ensures ran { Ran D.Disk disk.old disk.new (IsErr result) }
        ensures calls { OnOk result (D.moment disk.new ≡ D.moment disk.old + (header_calls (len_of self.old) + 5)) }
    {
        match &mut self.gate {
            Some(gate) => gate.append(disk, batch.bytes()),
            None => unreachable!(),
        }
    }

    /// Reads the body of the record that stands at a place, whose length is the buffer's. The record's range lies in the
    /// file.
    pub fn read<D: Disk>(&mut self, disk: &mut D, place: u64, into: &mut [u8]) -> Result<(), Fault>
        requires range { place + length into.old + 5 ≤ len_of self.old }
        requires store { D.tells → IsSmallStore self.old (D.files disk.old (name_of self.old)) }
        requires stands { D.tells
            → Has D.Disk (name_of self.old) disk.old (λ f. IsWhole f.reads place (length into.old)) }
        ensures body { OnOk result
            (D.tells → Has D.Disk (name_of self.old) disk.old (λ f. StandsAt f.reads place into.new)) }
        ensures same { self.new ≡ self.old }
        ensures reads { D.tells → OnlyReads D.Disk disk.old disk.new }
        ensures ran { Ran D.Disk disk.old disk.new (IsErr result) }
        ensures calls { OnOk result (D.moment disk.new ≡ D.moment disk.old + 1) }
    {
        match &mut self.gate {
            Some(gate) => gate.read(disk, place + 4, into),
            None => unreachable!(),
        }
    }

    /// Whether the record of a body of this length stands at a place. No record stands in a vacant store.
    pub fn whole<D: Disk>(&mut self, disk: &mut D, place: u64, len: u32) -> Result<bool, Fault>
        requires { D.tells → IsSmallStore self.old (D.files disk.old (name_of self.old)) }
        ensures whole { IfOk result
            (λ whole. D.tells
            → (whole ≡ true) ↔ Has D.Disk (name_of self.old) disk.old (λ f. IsWhole f.reads place len)) }
        ensures same { self.new ≡ self.old }
        ensures reads { D.tells → OnlyReads D.Disk disk.old disk.new }
        ensures ran { Ran D.Disk disk.old disk.new (IsErr result) }
    {
        match &mut self.gate {
            Some(gate) => is_whole(gate, disk, place, len),
            None => Ok(false),
        }
    }

    /// Whether the file isn't made yet.
    pub fn is_vacant(&self) -> bool
        ensures { (result ≡ true) ↔ IsVacant self.now }
    {
        match &self.gate {
            Some(_) => false,
            None => true,
        }
    }

    /// The number of the segment.
    pub fn number(&self) -> u64
        ensures { result ≡ (name_of self.now).number }
    {
        self.name.number
    }

    /// Where the content ends: 128 plus its length. At most 2^62.
    pub fn end(&self) -> u64
        ensures end { result ≡ end_of self.now }
        ensures low { 128 ≤ result }
        ensures high { result ≤ 2 ^ 62 }
    {
        match &self.gate {
            Some(gate) => gate.end(),
            None => HEADER_LEN,
        }
    }

    /// The length of the file, as this value knows it, and 0 of a vacant store. At most 2^62.
    pub fn len(&self) -> u64
        ensures len { result ≡ len_of self.now }
        ensures short { result ≤ 2 ^ 62 }
    {
        match &self.gate {
            Some(gate) => gate.len(),
            None => 0,
        }
    }
}

/// The name of a store's file.
fn name(queue: u32, number: u64) -> Name
    ensures { result ≡ record { kind = Small; queue = queue; number = number } }
{
    Name {
        kind: Kind::Small,
        queue,
        number,
    }
}

/// Whether the record of a body of this length stands at a place of the file.
fn is_whole<D: Disk>(gate: &mut Gate, disk: &mut D, place: u64, len: u32) -> Result<bool, Fault>
    requires { D.tells → IsThere (D.files disk.old (gate_name gate.old)) (IsGate gate.old) }
    ensures whole { IfOk result
        (λ whole. D.tells
        → Has D.Disk (gate_name gate.old) disk.old (λ f. (whole ≡ true) ↔ IsWhole f.reads place len)) }
    ensures same { gate.new ≡ gate.old }
    ensures reads { D.tells → OnlyReads D.Disk disk.old disk.new }
    ensures ran { Ran D.Disk disk.old disk.new (IsErr result) }
{
    let end = gate.end();
    if place < HEADER_LEN || end < place || end - place < len as u64 + 5 {
        return Ok(false);
    }
    if number(gate, disk, place)? != len {
        return Ok(false);
    }
    Ok(byte(gate, disk, place + 4 + len as u64)? == 255)
}

/// The number of four bytes at a place of the file.
fn number<D: Disk>(gate: &mut Gate, disk: &mut D, at: u64) -> Result<u32, Fault>
    requires { D.tells → IsThere (D.files disk.old (gate_name gate.old)) (λ f. at + 4 ≤ length f.reads) }
    ensures value { IfOk result
        (λ value. D.tells → Has D.Disk (gate_name gate.old) disk.old (λ f. value ≡ number_at w32 f.reads at)) }
    ensures same { gate.new ≡ gate.old }
    ensures reads { D.tells → OnlyReads D.Disk disk.old disk.new }
    ensures ran { Ran D.Disk disk.old disk.new (IsErr result) }
{
    let mut bytes = [0; 4];
    gate.read(disk, at, &mut bytes)?;
    Ok(u32::from_be_bytes(bytes))
}

/// The byte at a place of the file.
fn byte<D: Disk>(gate: &mut Gate, disk: &mut D, at: u64) -> Result<u8, Fault>
    requires { D.tells → IsThere (D.files disk.old (gate_name gate.old)) (λ f. at + 1 ≤ length f.reads) }
    ensures value { IfOk result
        (λ value. D.tells → Has D.Disk (gate_name gate.old) disk.old (λ f. value ≡ slice_index f.reads at)) }
    ensures same { gate.new ≡ gate.old }
    ensures reads { D.tells → OnlyReads D.Disk disk.old disk.new }
    ensures ran { Ran D.Disk disk.old disk.new (IsErr result) }
{
    let mut bytes = [0; 1];
    gate.read(disk, at, &mut bytes)?;
    Ok(bytes[0])
}
