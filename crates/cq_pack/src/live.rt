// The live records among blocks.
ghost use Rattle.std.specs.Prelude.{◌≡◌, ℕ, ◌&&◌, IfOk, nat_eq, nat_lt};
ghost use Rattle.std.specs.HashSet.{contains};
ghost use Rattle.cq_bytes.specs.Numbers.{contains as stands_in};
ghost use Rattle.cq_pack.specs.Packing.{live_of};

use cq_block::{Block, Move};
use std::alloc::{AllocError, Global};
use std::collections::HashSet;

/// The ids as a set.
fn ids(alloc: Global, live: &[u128]) -> Result<HashSet<u128>, AllocError>
    ensures { IfOk result (λ set. (q : ℕ) → contains nat_eq set q ≡ stands_in live.now q) }
{
    let mut set = HashSet::new(alloc);
    for id in live {
        set.insert(*id)?;
    }
    Ok(set)
}

/// Whether a block is a record whose id is in a set.
fn is_live(ids: &HashSet<u128>, block: &Block) -> bool
    ensures { result ≡ (nat_lt 0 block.now.id && contains nat_eq ids.now block.now.id) }
{
    block.id > 0 && ids.contains(&block.id)
}

/// The live records among blocks, where they stand.
pub(crate) fn records(
    alloc: Global,
    blocks: &[Block],
    live: &[u128],
) -> Result<Vec<Move>, AllocError>
    ensures { IfOk result (λ records. records.items ≡ live_of live.now blocks.now) }
{
    let ids = ids(alloc, live)?;
    let mut records = Vec::new(alloc);
    for block in blocks {
        if is_live(&ids, block) {
            records.push(Move {
                id: block.id,
                from: block.at,
                to: block.at,
                len: block.len,
            })?;
        }
    }
    Ok(records)
}
