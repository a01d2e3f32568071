// Confirms that wait for each queue.
use crate::{Lacks, Sure};
use std::alloc::AllocError;
use std::test::Fail;

/// Adds a message that is new.
fn add(lacks: &mut Lacks, sure: Sure, id: u128, queues: u32) -> Result<(), AllocError> {
    if queues == 0 || lacks.is_lacking(id) {
        return Ok(());
    }
    lacks.add(sure.client, sure.number, id, queues)
}

/// Passes a queue of a message that lacks one.
fn pass(lacks: &mut Lacks, id: u128) -> Option<Sure> {
    if !lacks.is_lacking(id) {
        return None;
    }
    lacks.pass(id)
}

#[test]
fn a_publish_is_answered_at_its_last_queue(rt: HostRuntime) -> Result<(), Fail> {
    let first = Sure {
        client: 3,
        number: 7,
    };
    let second = Sure {
        client: 4,
        number: 0,
    };
    let mut lacks = Lacks::new(rt.alloc());
    add(&mut lacks, first, 11, 2)?;
    add(&mut lacks, second, 12, 1)?;
    assert!(rt; lacks.is_lacking(11) && lacks.is_lacking(12));
    assert_eq!(rt; pass(&mut lacks, 11), None);
    assert_eq!(rt; pass(&mut lacks, 12), Some(second));
    assert!(rt; lacks.is_lacking(11) && !lacks.is_lacking(12));
    assert_eq!(rt; pass(&mut lacks, 11), Some(first));
    assert!(rt; !lacks.is_lacking(11));
    Ok(())
}
