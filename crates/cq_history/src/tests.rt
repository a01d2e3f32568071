// Two clients and a publish to two queues.
ghost use Rattle.std.specs.Prelude.{◌≡◌, ◌<◌, ◌≤◌, length};
ghost use Rattle.cq_journal.specs.Legal.{newest};

use crate::History;
use cq_bytes::{Body, Queues};
use cq_journal::Lines;
use std::alloc::{AllocError, Global};
use std::test::Fail;

/// The queues 3 and 7.
fn two_queues(alloc: Global) -> Queues {
    let mut queues = Queues::new(alloc);
    let _ = queues.push(3);
    let _ = queues.push(7);
    queues
}

/// Publishes a message of the client 0.
fn publish(history: &mut History, alloc: Global) -> Result<bool, AllocError>
    requires client { 0 < length history.old.clients }
    requires later { newest history.old.entries ≤ 3 }
    ensures later { newest history.new.entries ≤ 3 }
{
    let queues = two_queues(alloc);
    let body = Body::copy(alloc, b"hi")?;
    history.reserve(0)?;
    if queues.numbers().is_empty() {
        return Ok(false);
    }
    Ok(history.publish(0, 3, queues, body).is_ok())
}

/// Passes a queue of a message, and tells whether it lacks one more.
fn pass(history: &mut History, id: u128) -> Result<bool, AllocError>
    requires { newest history.old.entries ≤ 3 }
    ensures { newest history.new.entries ≤ 3 }
{
    history.reserve_entries(1)?;
    if history.is_lacking(id) {
        history.pass(id, 3);
    }
    Ok(history.is_lacking(id))
}

#[test]
fn a_publish_is_confirmed_at_its_last_queue(rt: HostRuntime) -> Result<(), Fail> {
    let alloc = rt.alloc();
    let mut history = History::new(alloc, 2, Lines::new(alloc), Vec::new(alloc), 1)?;
    assert!(rt; history.clients() == 2);
    let id = history.next_id();
    let published = publish(&mut history, alloc)?;
    let first = pass(&mut history, id)?;
    let second = pass(&mut history, id)?;
    assert!(rt; published && first && !second);
    assert!(rt; history.journal().entries().len() == 3);
    Ok(())
}
