// The records of contents.
use crate::RdqError;
use crate::list::listed;
use cq_block::Block;
use std::alloc::Global;
use std::test::Fail;

/// A filler of 25 bytes and the record with id 1 and the body `hi`.
const FILLED: [u8; 52] = [
    0, 0, 0, 0, 0, 0, 0, 0x10, 0, 0, 0, 0, 0, 0, 0, 0, 0, 0, 0, 0, 0, 0, 0, 0, 255, 0, 0, 0, 0, 0,
    0, 0, 0x12, 0, 0, 0, 0, 0, 0, 0, 0, 0, 0, 0, 0, 0, 0, 0, 1, b'h', b'i', 255,
];

/// The record with nothing before it, and behind the filler.
const FIRST: Block = Block {
    at: 128,
    len: 27,
    id: 1,
};

const SECOND: Block = Block {
    at: 153,
    len: 27,
    id: 1,
};

/// Where a part of these bytes begins and ends, another last byte, and what is told of it: a place and a byte where it is
/// no chain.
const ROWS: [(usize, usize, u8, Result<Option<Block>, (u64, u8)>); 7] = [
    (25, 52, 255, Ok(Some(FIRST))),
    (25, 52, 0xfe, Err((154, 0xfe))),
    (25, 49, 1, Err((128, 0))),
    (0, 0, 0, Ok(None)),
    (0, 25, 255, Ok(None)),
    (0, 52, 255, Ok(Some(SECOND))),
    (0, 52, 0xfe, Err((179, 0xfe))),
];

/// The only record of a content.
fn only(alloc: Global, content: &[u8]) -> Result<Option<Block>, RdqError> {
    if content.len() > FILLED.len() {
        return Err(RdqError::Fault);
    }
    let list = listed(alloc, content)?;
    if list.len() > 1 {
        return Err(RdqError::Fault);
    }
    Ok(list.first().copied())
}

#[test]
fn a_content_tells_its_records(rt: HostRuntime) -> Result<(), Fail> {
    let alloc = rt.alloc();
    for (from, to, last, told) in ROWS {
        let mut content = FILLED.get(from..to).unwrap_or(&[]).to_vec(alloc)?;
        if let Some(byte) = content.last_mut() {
            *byte = last;
        }
        let told = told.map_err(|(place, found)| RdqError::Damaged { place, found });
        assert_eq!(rt; (from, to, only(alloc, &content)), (from, to, told));
    }
    Ok(())
}
