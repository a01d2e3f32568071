// Reading what a shared file holds.
ghost use Rattle.std.specs.Prelude.{◌≡◌, ◌≢◌, ◌+◌, ◌≤◌, ◌^◌, not, ◌==◌, length, slice_index, IfOk, IfErr, IsErr, IsErrOf};
ghost use Rattle.cq_disk.specs.Files.{IsThere};
ghost use Rattle.cq_disk.specs.Run.{Ran, OnlyReads};
ghost use Rattle.cq_gate.specs.Calls.{Has};
ghost use Rattle.cq_gate.specs.Gate.{Shows, end_of, kind_of, name_of, plan_len_of, slot_in};
ghost use Rattle.cq_gate.specs.Gated.{place_of};
ghost use Rattle.cq_block.specs.Blocks.{BreaksAt};
ghost use Rattle.cq_rdq.specs.Forms.{BreaksShared, IfDamaged, StandFrom};
ghost use Rattle.cq_rdq.specs.Opened.{IsBroken};
ghost use Rattle.cq_rdq.specs.Records.{ChainHas, Records as AreRecords};
ghost use Rattle.cq_rdq.specs.declared.error.RdqError.TheVariants.{Fault as rdq_fault};

use crate::error::RdqError;
use cq_block::{Block, chain};
use cq_disk::{Disk, Fault};
use cq_gate::{Gate, HEADER_LEN};
use std::alloc::Global;

/// The place of byte 8 of the slot that is selected, whose plan it begins, and that byte.
pub(crate) fn plan_byte<D: Disk>(gate: &mut Gate, disk: &mut D) -> Result<(u64, u8), Fault>
    requires planned { (plan_len_of gate.old ≢ 0) × (kind_of gate.old ≡ 3) }
    requires shows { D.tells → IsThere (D.files disk.old (name_of gate.old)) (λ f. Shows gate.old f.reads) }
    ensures place { IfOk result (λ told. told.0 ≡ place_of (slot_in gate.old).second + 8) }
    ensures breaks { IfOk result
        (λ told. D.tells → Has D.Disk (name_of gate.old) disk.old
        (λ f. BreaksShared f.reads told.0 × (told.1 ≡ slice_index f.reads told.0))) }
    ensures reads { D.tells → OnlyReads D.Disk disk.old disk.new }
    ensures ran { Ran D.Disk disk.old disk.new (IsErr result) }
{
    let place = gate.slot_place() + 8;
    let mut byte = [0; 1];
    gate.read(disk, place, &mut byte)?;
    Ok((place, byte[0]))
}

/// The records of a file with no plan: one read of its content, if it has any. `Damaged` exactly where that is no chain.
pub(crate) fn records<D: Disk>(
    alloc: Global,
    gate: &mut Gate,
    disk: &mut D,
) -> Result<Vec<Block>, RdqError>
    requires plain { plan_len_of gate.old ≡ 0 }
    requires shows { D.tells → IsThere (D.files disk.old (name_of gate.old)) (λ f. Shows gate.old f.reads) }
    ensures records { IfOk result
        (λ list. D.tells → Has D.Disk (name_of gate.old) disk.old (λ f. AreRecords f.reads list.items)) }
    ensures stand { IfOk result (λ list. StandFrom 128 (end_of gate.old) list.items) }
    ensures damaged { IfErr result
        (λ error. IfDamaged error (IsBroken D.Disk (name_of gate.old) disk.old (end_of gate.old))) }
    ensures same { gate.new ≡ gate.old }
    ensures reads { D.tells → OnlyReads D.Disk disk.old disk.new }
    ensures ran { Ran D.Disk disk.old disk.new (IsErrOf result rdq_fault) }
{
    let len = gate.end() - HEADER_LEN;
    if len == 0 {
        return Ok(Vec::new(alloc));
    }
    let mut bytes = vec![in alloc; 0; len as usize]?;
    gate.read(disk, HEADER_LEN, &mut bytes)?;
    listed(alloc, &bytes)
}

/// The records of a content. `Damaged` exactly where it is no chain.
pub(crate) fn listed(alloc: Global, content: &[u8]) -> Result<Vec<Block>, RdqError>
    requires { length content.now ≤ 2 ^ 62 }
    ensures records { IfOk result (λ list. ChainHas content.now list.items) }
    ensures stand { IfOk result (λ list. StandFrom 128 (128 + length content.now) list.items) }
    ensures broken { IfErr result (λ error. IfDamaged error (BreaksAt content.now)) }
    ensures no_fault { IsErrOf result rdq_fault → ⊥ }
{
    let mut blocks = chain(alloc, content)?;
    blocks.retain(|block| is_record(block));
    Ok(blocks)
}

/// Whether a block is a record.
fn is_record(block: &Block) -> bool
    ensures { result ≡ not (block.now.id == 0) }
{
    block.id != 0
}
