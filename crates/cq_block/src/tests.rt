// Chains, batches and plans with ample memory.
use crate::{Block, BlockError, Move, RecordBatch, chain, decode_plan, encode_plan, filler_head};
use cq_bytes::Body;
use std::test::Fail;

/// The bytes of the record with id 1 and the body `hi`.
const HI: [u8; 27] = [
    0, 0, 0, 0, 0, 0, 0, 0x12, 0, 0, 0, 0, 0, 0, 0, 0, 0, 0, 0, 0, 0, 0, 0, 1, 0x68, 0x69, 0xff,
];

#[test]
fn a_batch_is_a_chain_of_its_blocks(rt: HostRuntime) -> Result<(), Fail> {
    let alloc = rt.alloc();
    let mut batch = RecordBatch::new(alloc);
    assert_eq!(rt; batch.push(1, &Body::copy(alloc, b"hi")?)?, 0);
    assert_eq!(rt; batch.bytes(), HI.as_slice());
    assert_eq!(rt;
        batch.blocks(),
        [Block {
            at: 0,
            len: 27,
            id: 1
        }]
        .as_slice()
    );
    assert_eq!(rt; batch.push(2, &Body::copy(alloc, b"")?)?, 27);
    let blocks = match chain(alloc, batch.bytes()) {
        Ok(blocks) => blocks,
        Err(_) => Vec::new(alloc),
    };
    assert_eq!(rt;
        blocks.as_slice(),
        [
            Block {
                at: 128,
                len: 27,
                id: 1
            },
            Block {
                at: 155,
                len: 25,
                id: 2
            }
        ]
        .as_slice()
    );
    Ok(())
}

#[test]
fn the_first_place_that_breaks_a_chain_is_told(rt: HostRuntime) -> Result<(), Fail> {
    let alloc = rt.alloc();
    let mut bytes = HI;
    bytes[26] = 0xfe;
    let told = chain(alloc, &bytes).err();
    assert_eq!(rt;
        told,
        Some(BlockError::Broken {
            place: 154,
            found: 254
        })
    );
    let told = chain(alloc, &HI[..24]).err();
    assert_eq!(rt;
        told,
        Some(BlockError::Broken {
            place: 128,
            found: 0
        })
    );
    Ok(())
}

#[test]
fn a_plan_is_read_back(rt: HostRuntime) -> Result<(), Fail> {
    let alloc = rt.alloc();
    let moves = [
        Move {
            id: 1,
            from: 328,
            to: 328,
            len: 100,
        },
        Move {
            id: 2,
            from: 728,
            to: 128,
            len: 150,
        },
    ];
    let bytes = encode_plan(alloc, &moves)?;
    assert_eq!(rt; bytes.len(), 88);
    let read = match decode_plan(alloc, &bytes)? {
        Some(read) => read,
        None => Vec::new(alloc),
    };
    assert_eq!(rt; read.as_slice(), moves.as_slice());
    assert!(rt; decode_plan(alloc, &[0, 0, 0, 0, 0, 0, 0, 1])?.is_none());
    assert!(rt; decode_plan(alloc, &[0; 8])?.is_none());
    Ok(())
}

#[test]
fn a_filler_of_fifty_bytes_has_its_head(rt: HostRuntime) -> Result<(), Fail> {
    let head = filler_head(50);
    assert_eq!(rt; head[7], 0x29);
    assert_eq!(rt; head[23], 0);
    Ok(())
}
