// Packings with ample memory.
ghost use Rattle.std.specs.Prelude.{◌≡◌, ◌≤◌};

use crate::pack;
use cq_block::{Block, Move, encode_plan, filler_head};
use std::alloc::{AllocError, Global};
use std::test::Fail;

/// A block of a file.
fn block(at: u64, len: u64, id: u128) -> Block
    ensures { result ≡ record { at = at; len = len; id = id } }
{
    Block { at, len, id }
}

#[test]
fn the_last_record_goes_into_the_first_hole(rt: HostRuntime) -> Result<(), Fail> {
    let alloc = rt.alloc();
    let blocks = [
        block(128, 200, 1),
        block(328, 100, 2),
        block(428, 300, 3),
        block(728, 150, 4),
    ];
    let packing = pack(alloc, &blocks, &[2, 4])?;
    let moves = [
        Move {
            id: 2,
            from: 328,
            to: 328,
            len: 100,
        },
        Move {
            id: 4,
            from: 728,
            to: 128,
            len: 150,
        },
    ];
    assert_eq!(rt; packing.moves.as_slice(), moves.as_slice());
    assert_eq!(rt; packing.new_end, 428);
    assert_eq!(rt; encode_plan(alloc, &moves)?.len(), 88);
    // The gap from 278 to 328 becomes a filler of 50 bytes.
    let mut head = [0; 24];
    head[7] = 0x29;
    assert_eq!(rt; filler_head(50), head);
    Ok(())
}

#[test]
fn holes_are_taken_from_the_lowest_on(rt: HostRuntime) -> Result<(), Fail> {
    let alloc = rt.alloc();
    let blocks = [block(328, 100, 1), block(618, 100, 2), block(718, 190, 3)];
    let packing = pack(alloc, &blocks, &[1, 2, 3])?;
    let mut targets = Vec::new(alloc);
    for step in &packing.moves {
        targets.push(step.to)?;
    }
    // The hole of 200 is neither 190 nor at least 215.
    assert_eq!(rt; targets.as_slice(), [328, 128, 428].as_slice());
    assert_eq!(rt; packing.new_end, 618);
    Ok(())
}

/// The new end of a file with one live record, which stands behind a hole of 1025 bytes.
fn new_end_behind_a_hole(alloc: Global, len: u64) -> Result<u64, AllocError>
    requires least { 25 ≤ len }
    requires most { len ≤ 1048601 }
{
    let packing = pack(alloc, &[block(1153, len, 1)], &[1])?;
    Ok(packing.new_end)
}

#[test]
fn a_record_moves_where_it_fits_its_hole(rt: HostRuntime) -> Result<(), Fail> {
    let alloc = rt.alloc();
    assert_eq!(rt; new_end_behind_a_hole(alloc, 1015)?, 1153 + 1015);
    assert_eq!(rt; new_end_behind_a_hole(alloc, 1000)?, 128 + 1000);
    assert_eq!(rt; new_end_behind_a_hole(alloc, 1025)?, 128 + 1025);
    Ok(())
}
