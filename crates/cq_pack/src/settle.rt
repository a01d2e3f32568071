// Moving records, one after another, into the holes between them.
ghost use Rattle.std.specs.Prelude.{◌≡◌, ◌+◌, ◌-◌, ◌^◌, ◌<◌, ◌≤◌, ◌++◌, reverse, IfOk};
ghost use Rattle.cq_pack.specs.Packing.{ArePackable, AreSpaced, AreBelow, IsPacking, end_of};
ghost use Rattle.cq_pack.specs.Holes.{starts_before, sizes_before};

use crate::Packing;
use crate::sizes::Sizes;
use cq_block::Move;
use std::alloc::{AllocError, Global};

/// Where a file's content begins.
const CONTENT: u64 = 128;

/// The place behind the last of some records.
fn end(records: &[Move]) -> u64
    requires { end_of records.now < 2 ^ 64 }
    ensures { result ≡ end_of records.now }
{
    if records.is_empty() {
        return CONTENT;
    }
    let last = records[records.len() - 1];
    last.to + last.len
}

/// Where the holes before records begin, and their sizes.
fn holes(alloc: Global, records: &[Move]) -> Result<(Vec<u64>, Vec<u64>), AllocError>
    requires spaced { AreSpaced 128 records.now }
    requires below { AreBelow records.now }
    ensures { IfOk result
        (λ (starts, sizes). (starts.items ≡ starts_before 128 records.now)
        × (sizes.items ≡ sizes_before 128 records.now)) }
{
    let mut starts = Vec::new(alloc);
    let mut sizes = Vec::new(alloc);
    let mut start = CONTENT;
    for record in records {
        starts.push(start)?;
        sizes.push(record.to - start)?;
        start = record.to + record.len;
    }
    Ok((starts, sizes))
}

/// The packing of records.
pub(crate) fn settle(alloc: Global, records: Vec<Move>) -> Result<Packing, AllocError>
    requires { ArePackable records.items }
    ensures { IfOk result (λ p. IsPacking records.items p.moves.items p.new_end) }
{
    let (mut starts, sizes) = holes(alloc, &records)?;
    let mut sizes = Sizes::of(alloc, sizes)?;
    let mut standing = records;
    let mut moved = Vec::new(alloc);
    'moves: loop {
        let last = standing[standing.len() - 1];
        let Some(hole) = sizes.lowest(last.len) else {
            return packing(standing, moved, last.to + last.len);
        };
        let to = starts[hole];
        moved.push(Move {
            id: last.id,
            from: last.from,
            to,
            len: last.len,
        })?;
        standing.pop();
        starts[hole] = to + last.len;
        sizes.shrink(hole, last.len)?;
        // The last hole lies before the record that went. If something was moved into it, that is last now: it went to the
        // lowest hole that might take it, so it fits none before it.
        let new_end = starts[standing.len()];
        if new_end != end(&standing) {
            return packing(standing, moved, new_end);
        }
        starts.pop();
        sizes.drop_last();
    }
}

/// The packing where these records stand, and these were moved, the last one first.
fn packing(
    mut standing: Vec<Move>,
    mut moved: Vec<Move>,
    new_end: u64,
) -> Result<Packing, AllocError>
    ensures moves { IfOk result (λ p. p.moves.items ≡ standing.items ++ reverse moved.items) }
    ensures end { IfOk result (λ p. p.new_end ≡ new_end) }
{
    moved.reverse();
    standing.extend_from_slice(&moved)?;
    Ok(Packing {
        moves: standing,
        new_end,
    })
}
