//! Where the live records of a shared file go when it is compacted.
#![tactic(auto)]

mod greatest;
mod live;
mod settle;
mod sizes;

ghost use Rattle.std.specs.Prelude.{IfOk};
ghost use Rattle.cq_pack.specs.Packing.{CanPack, IsPacking, IsPacked, live_of};

use cq_block::{Block, Move};
use std::alloc::{AllocError, Global};

/// Where the live records of a file go.
#[derive(Debug, Drop)]
pub struct Packing {
    /// The live records by rising place, each with the place where it goes.
    pub moves: Vec<Move>,
    /// The place behind the last record once all are moved.
    pub new_end: u64,
}

/// The packing of the live records among the blocks of a file. Repeatedly the last record goes to the start of the lowest
/// hole before it whose size is its length, or is at least its length and 25 more; dead records and fillers count as
/// free. It stops where the last record fits no hole before it.
pub fn pack(alloc: Global, blocks: &[Block], live: &[u128]) -> Result<Packing, AllocError>
    requires { CanPack blocks.now live.now }
    ensures packing { IfOk result (λ p. IsPacking (live_of live.now blocks.now) p.moves.items p.new_end) }
    ensures laws { IfOk result (λ p. IsPacked p.moves.items p.new_end) }
{
    let records = live::records(alloc, blocks, live)?;
    settle::settle(alloc, records)
}

#[cfg(test)]
mod tests;
