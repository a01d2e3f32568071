// A file with live records among dead ones.
ghost use Rattle.std.specs.Prelude.{◌≡◌, ℕ, ◌+◌, ◌*◌, ◌%◌, ◌<◌, ◌≤◌, IfOk};
ghost use Rattle.cq_pack.specs.Packing.{CanPack};
ghost use Rattle.cq_bench.specs.Made.{dead_len, live_len};

use cq_block::Block;
use std::alloc::{AllocError, Global};

/// The whole length of a dead record.
fn dead(k: u32) -> u64
    ensures { result ≡ dead_len k }
{
    25 + u64::from(k) * 104_729 % 4000
}

/// The whole length of a live record.
fn live(k: u32) -> u64
    ensures { result ≡ live_len k }
{
    25 + u64::from(k) * 7919 % 2000
}

/// The blocks of a file in which so many dead and live records take turns, and the ids of the live ones.
pub(crate) fn file(alloc: Global, count: u32) -> Result<(Vec<Block>, Vec<u128>), AllocError>
    requires some { 0 < count }
    requires fits { count ≤ 1000000 }
    ensures { IfOk result (λ (blocks, ids). CanPack blocks.items ids.items) }
{
    let mut blocks = Vec::new(alloc);
    let mut ids = Vec::new(alloc);
    let mut at = 128;
    for k in 0..count {
        let hole = dead(k);
        let len = live(k);
        let id = 2 * u128::from(k) + 1;
        blocks.push(Block { at, len: hole, id })?;
        blocks.push(Block {
            at: at + hole,
            len,
            id: id + 1,
        })?;
        ids.push(id + 1)?;
        at = at + hole + len;
    }
    Ok((blocks, ids))
}
