// Reading a content as a chain of blocks.
ghost use Rattle.std.specs.Prelude.{◌≡◌, ◌+◌, ◌^◌, ◌<◌, true, false, length, MatchOption, MatchResult, IfOk, IfErr, List};
ghost use Rattle.cq_block.specs.Blocks.{told_len, told_id, has_head, IsFront, NoFront, IsChain, IsCause};
ghost use Rattle.cq_block.specs.declared.layout.Block.{Block as SeenBlock};

use crate::layout::{Block, BlockError};
use cq_bytes::{take_u64, take_u128};
use std::alloc::Global;

/// The most bytes of a record: a body of 1,048,576 and 25 more.
const LONGEST_RECORD: u64 = 1_048_601;

/// Where a block should stand and none does: the place and the byte that tell it.
#[derive(Clone, Copy)]
struct Gap {
    place: u64,
    found: u8,
}

/// Reads the content of a shared file, which begins at its byte 128, as blocks one after another to its end. `Broken`
/// exactly where it is no such chain, with the first place that breaks it: the first byte of a block whose head is
/// wrong, or the last byte of one that doesn't end in 255.
pub fn chain(alloc: Global, content: &[u8]) -> Result<Vec<Block>, BlockError>
    ensures chain { IfOk result (λ blocks. IsChain content.now blocks.items) }
    ensures only { IfOk result
        (λ blocks. (others : List SeenBlock) → IsChain content.now others → others ≡ blocks.items) }
    ensures broken { IfErr result (IsCause content.now) }
{
    let mut blocks = Vec::new(alloc);
    let mut offset = 0;
    while offset < content.len() {
        let block = match front(&content[offset..], 128 + offset as u64) {
            Ok(block) => block,
            Err(gap) => {
                return Err(BlockError::Broken {
                    place: gap.place,
                    found: gap.found,
                });
            }
        };
        blocks.push(block)?;
        offset += block.len as usize;
    }
    Ok(blocks)
}

/// The block at the front of bytes that begin at a place.
fn front(bytes: &[u8], at: u64) -> Result<Block, Gap>
    requires some { 0 < length bytes.now }
    requires fits { at + length bytes.now < 2 ^ 64 }
    ensures { MatchResult result (IsFront at bytes.now) (λ gap. NoFront at bytes.now gap.place gap.found) }
{
    let Some((len, id)) = head(bytes) else {
        return Err(Gap {
            place: at,
            found: bytes[0],
        });
    };
    let last = bytes[len as usize - 1];
    if last != 255 {
        return Err(Gap {
            place: at + (len - 1),
            found: last,
        });
    }
    Ok(Block { at, len, id })
}

/// The whole length and the id that the head of the block at the front of bytes tells. `None` where the head is wrong.
fn head(bytes: &[u8]) -> Option<(u64, u128)>
    ensures { MatchOption result (has_head bytes.now ≡ false)
        (λ told. (has_head bytes.now ≡ true) × (told.0 ≡ told_len bytes.now) × (told.1 ≡ told_id bytes.now)) }
{
    if bytes.len() < 25 {
        return None;
    }
    let len = take_u64(bytes, 0)?.checked_add(9)?;
    let id = take_u128(bytes, 8)?;
    if len < 25 || len as usize > bytes.len() || (id != 0 && len > LONGEST_RECORD) {
        return None;
    }
    Some((len, id))
}
