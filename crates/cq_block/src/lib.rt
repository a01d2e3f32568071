//! The blocks of shared files: chains of blocks, batches of records, and the plans of a compaction.
#![tactic(auto)]

mod batch;
mod layout;
mod plan;
mod reader;

pub use batch::RecordBatch;
pub use layout::{Block, BlockError, Move, filler_head};
pub use plan::{decode_plan, encode_plan};
pub use reader::chain;

#[cfg(test)]
mod tests;
