// The bytes of a plan.
ghost use Rattle.std.specs.Prelude.{◌≡◌, ◌+◌, ◌≤◌, ◌<◌, ◌++◌, Some, true, false, length, IfOk, OnOk, MatchOption, option_map};
ghost use Rattle.cq_block.specs.Plans.{Fits, move_bytes, plan_bytes, move_at, plan_of, is_plan, told_count};

use crate::layout::Move;
use cq_bytes::{take_u64, take_u128};
use std::alloc::{AllocError, Global};

/// How many bytes a move has.
const MOVE_BYTES: usize = 40;

/// The bytes of a plan of these moves, from which `decode_plan` reads the same moves.
pub fn encode_plan(alloc: Global, moves: &[Move]) -> Result<Vec<u8>, AllocError>
    requires { 0 < length moves.now }
    ensures spelled { IfOk result (λ bytes. bytes.items ≡ plan_bytes moves.now) }
    ensures read_back { IfOk result (λ bytes. plan_of bytes.items ≡ Some moves.now) }
{
    let mut bytes = Vec::new(alloc);
    bytes.extend_from_slice(&(moves.len() as u64).to_be_bytes())?;
    for step in moves {
        spell(&mut bytes, step)?;
    }
    Ok(bytes)
}

/// The moves of a plan. `None` exactly where the count isn't at least 1 or doesn't agree with the length.
pub fn decode_plan(alloc: Global, bytes: &[u8]) -> Result<Option<Vec<Move>>, AllocError>
    ensures { IfOk result (λ moves. option_map (λ list. list.items) moves ≡ plan_of bytes.now) }
{
    let Some(count) = count(bytes) else {
        return Ok(None);
    };
    let mut moves = Vec::new(alloc);
    for k in 0..count {
        moves.push(read(bytes, 8 + MOVE_BYTES * k))?;
    }
    Ok(Some(moves))
}

/// Appends the bytes of a move.
fn spell(bytes: &mut Vec<u8>, step: &Move) -> Result<(), AllocError>
    ensures spelled { OnOk result (bytes.new.items ≡ bytes.old.items ++ move_bytes step.now) }
    ensures fits { OnOk result (Fits step.now) }
{
    bytes.extend_from_slice(&step.id.to_be_bytes())?;
    bytes.extend_from_slice(&step.from.to_be_bytes())?;
    bytes.extend_from_slice(&step.to.to_be_bytes())?;
    bytes.extend_from_slice(&step.len.to_be_bytes())?;
    Ok(())
}

/// How many moves a plan has. `None` where the bytes are no plan.
fn count(bytes: &[u8]) -> Option<usize>
    ensures { MatchOption result (is_plan bytes.now ≡ false)
        (λ n. (is_plan bytes.now ≡ true) × (n ≡ told_count bytes.now)) }
{
    let count = take_u64(bytes, 0)?;
    let rest = bytes.len() - 8;
    if count == 0 || rest % MOVE_BYTES != 0 || (rest / MOVE_BYTES) as u64 != count {
        return None;
    }
    Some(rest / MOVE_BYTES)
}

/// The move that stands at a place.
fn read(bytes: &[u8], at: usize) -> Move
    requires { at + 40 ≤ length bytes.now }
    ensures { result ≡ move_at bytes.now at }
{
    Move {
        id: take_u128(bytes, at).unwrap_or(0),
        from: take_u64(bytes, at + 16).unwrap_or(0),
        to: take_u64(bytes, at + 24).unwrap_or(0),
        len: take_u64(bytes, at + 32).unwrap_or(0),
    }
}
