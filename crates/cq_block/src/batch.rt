// Records that are to be written in one piece.
ghost use Rattle.std.specs.Prelude.{◌≡◌, ◌≢◌, ◌+◌, [], ◌++◌, ℕ, List, length, IfOk, OnOk, OnErr};
ghost use Rattle.cq_block.specs.Blocks.{Batch, with_record, block_bytes, moved_by, IsRun, IsChain};
ghost use Rattle.cq_block.specs.declared.layout.Block.{Block as SeenBlock};

use crate::layout::{Block, head};
use cq_bytes::Body;
use std::alloc::{AllocError, Global};
use std::marker::Model;

/// Records one after another. A contract sees their bytes, and the records as blocks whose places are counted from the
/// first byte.
#[derive(Drop)]
pub struct RecordBatch {
    spelled: Vec<u8>,
    records: Vec<Block>,
}

impl Model for RecordBatch {
    ghost use Rattle.cq_block.specs.Blocks.{Batch, IsRun};
    ghost use Rattle.std.specs.Prelude.{[]};

    ghost Value = { Batch };

    ghost view = { λ b. record { bytes = b.spelled.items; blocks = b.records.items } };

    ghost invariant = { λ b. IsRun 0 b.spelled.items b.records.items [] };
}

impl RecordBatch {
    /// No record. It takes no memory.
    pub fn new(alloc: Global) -> RecordBatch
        ensures { result ≡ record { bytes = []; blocks = [] } }
    {
        RecordBatch {
            spelled: Vec::new(alloc),
            records: Vec::new(alloc),
        }
    }

    /// Adds a record at the end, and answers the place of its first byte in the batch. The batch is unchanged where
    /// memory runs out.
    pub fn push(&mut self, id: u128, body: &Body) -> Result<u64, AllocError>
        requires { id ≢ 0 }
        ensures place { IfOk result (λ at. at ≡ length self.old.bytes) }
        ensures ok { OnOk result (self.new ≡ with_record self.old id body.now) }
        ensures err { OnErr result (self.new ≡ self.old) }
    {
        let at = self.spelled.len() as u64;
        let len = body.bytes().len() as u64 + 25;
        self.records.push(Block { at, len, id })?;
        match spell(&mut self.spelled, id, body.bytes()) {
            Ok(()) => Ok(at),
            Err(error) => {
                self.records.pop();
                Err(error)
            }
        }
    }

    /// The bytes of the records, which are these blocks, one after another.
    pub fn bytes(&self) -> &[u8]
        ensures bytes { result.now ≡ self.now.bytes }
        ensures chain { IsRun 0 self.now.bytes self.now.blocks [] }
    {
        &self.spelled
    }

    /// The records. The bytes are these blocks, one after another, and behind a content they make its chain longer by
    /// these blocks.
    pub fn blocks(&self) -> &[Block]
        ensures blocks { result.now ≡ self.now.blocks }
        ensures chain { IsRun 0 self.now.bytes self.now.blocks [] }
        ensures appended { (content : List ℕ) (before : List SeenBlock) → IsChain content before
            → IsChain (content ++ self.now.bytes) (before ++ moved_by (128 + length content) self.now.blocks) }
    {
        &self.records
    }
}

/// Appends the bytes of a record. The bytes are unchanged where memory runs out.
fn spell(bytes: &mut Vec<u8>, id: u128, body: &[u8]) -> Result<(), AllocError>
    ensures ok { OnOk result (bytes.new.items ≡ bytes.old.items ++ block_bytes id body.now) }
    ensures err { OnErr result (bytes.new.items ≡ bytes.old.items) }
{
    bytes.reserve(body.len() + 25)?;
    // There is room now for all of these.
    bytes.extend_from_slice(&head(id, body.len() as u64))?;
    bytes.extend_from_slice(body)?;
    bytes.push(255)?;
    Ok(())
}
