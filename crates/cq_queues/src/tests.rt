// A message in two of a node's queues.
use crate::NodeQueues;
use cq_bytes::Body;
use std::alloc::{AllocError, Global};
use std::test::Fail;

/// The queues with one message, in queues 3 and 7.
fn with_message(alloc: Global) -> Result<NodeQueues, AllocError> {
    let mut queues = NodeQueues::vacant(alloc, 16)?;
    let mut copies = Vec::new(alloc);
    copies.push(Body::copy(alloc, b"hi")?)?;
    copies.push(Body::copy(alloc, b"hi")?)?;
    queues.reserve(&[3, 7])?;
    queues.publish(&[3, 7], 1, copies, 2);
    Ok(queues)
}

/// Whether client 1 gets the message of queue 7, and acknowledges it.
fn comes_and_goes(queues: &mut NodeQueues) -> bool {
    if queues.waiting(7) == 0 || queues.is_out(7, 1, 0) {
        return false;
    }
    queues.deliver(7, 1, 0);
    let out = queues.is_out(7, 1, 0);
    queues.give_back(1, &[3, 7]);
    let back = queues.waiting(7) == 1;
    queues.acked(7, 1, 0);
    out && back
}

#[test]
fn a_message_stands_in_each_queue(rt: HostRuntime) -> Result<(), Fail> {
    let mut queues = with_message(rt.alloc())?;
    assert!(rt; queues.first_undecided() == Some(3));
    assert!(rt; queues.first_settling().is_none() && queues.first_finished().is_none());
    assert!(rt; queues.waiting(3) == 1 && queues.waiting(7) == 1 && queues.waiting(4) == 0);
    assert!(rt; queues.undecided(7, 0) == Some(1) && queues.first_waiting(4).is_none());
    assert!(rt; comes_and_goes(&mut queues));
    Ok(())
}
