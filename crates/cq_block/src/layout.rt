// Blocks, moves of records, and the heads of blocks.
ghost use Rattle.std.specs.Prelude.{◌≡◌, ℕ, ◌+◌, ◌-◌, ◌≤◌, ◌<◌, ◌++◌, ◌^◌, List, length, take, slice_index, replicate};
ghost use Rattle.std.specs.Int.{w64, w128, to_be_bytes};
ghost use Rattle.cq_block.specs.Blocks.{IsFront};

use cq_bytes::{put_u64, put_u128};
use std::alloc::AllocFailed;

/// A block of a shared file: a record with its message's id, or a filler, whose id is 0.
#[derive(Clone, Copy, Debug, PartialEq, Eq)]
pub struct Block {
    /// The place of its first byte.
    pub at: u64,
    /// Its whole length in bytes: the body's and 25 more.
    pub len: u64,
    /// The message's id, 0 for a filler.
    pub id: u128,
}

/// A record that a compaction moves within its file, or leaves where it is.
#[derive(Clone, Copy, Debug, PartialEq, Eq)]
pub struct Move {
    /// The message's id.
    pub id: u128,
    /// The place of its first byte before the move.
    pub from: u64,
    /// The place of its first byte after the move.
    pub to: u64,
    /// Its whole length in bytes.
    pub len: u64,
}

/// Why a content wasn't read as a chain of blocks.
#[derive(Clone, Copy, Debug, PartialEq, Eq)]
pub enum BlockError {
    /// Memory ran out.
    Memory,
    /// The content is no chain.
    Broken {
        /// The place that tells it, counted from the file's first byte.
        place: u64,
        /// The byte that stands there, 0 past the content's end.
        found: u8,
    },
}

impl<T: Drop> From<AllocFailed<T>> for BlockError {
    ghost use Rattle.std.specs.Prelude.{◌≡◌};
    ghost use Rattle.cq_block.specs.declared.layout.BlockError.TheVariants.{Memory};

    ghost from_gives = { λ _ made. made ≡ Memory };

    fn from(_refused: AllocFailed<T>) -> BlockError {
        BlockError::Memory
    }
}

/// The first 24 bytes of a block whose body has so many bytes.
pub(crate) fn head(id: u128, body_len: u64) -> [u8; 24]
    requires { body_len + 16 < 2 ^ 64 }
    ensures { result ≡ to_be_bytes w64 (16 + body_len) ++ to_be_bytes w128 id }
{
    let mut bytes = [0; 24];
    put_u64(&mut bytes, 0, 16 + body_len);
    put_u128(&mut bytes, 8, id);
    bytes
}

/// The first 24 bytes of a filler of this whole length. With any bytes behind them and 255 as the last one they are
/// that filler.
pub fn filler_head(len: u64) -> [u8; 24]
    requires { 25 ≤ len }
    ensures head { result ≡ to_be_bytes w64 (len - 9) ++ replicate 16 0 }
    ensures fills { (at : ℕ) (bytes : List ℕ) → length bytes ≡ len → take 24 bytes ≡ result → slice_index bytes (len - 1) ≡ 255
        → IsFront at bytes (record { at = at; len = len; id = 0 }) }
{
    head(0, len - 25)
}
