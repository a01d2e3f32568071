// A node over a disk that reads other bytes than were written.
use super::Node;
use cq_bytes::{Body, Queues};
use cq_inbox::{Config, PlainInbox, Request};
use cq_journal::Reply;
use cq_memdisk::{Altered, MemDisk};
use std::test::Fail;

#[test]
fn a_written_body_is_read_back(rt: HostRuntime) -> Result<(), Fail> {
    // Each byte that this disk reads of a small store is one higher than what was written.
    let alloc = rt.alloc();
    let disk = Altered::new(MemDisk::new(alloc, Vec::new(alloc)));
    let Some(config) = Config::new(1, 4096, 4096, 16_777_216, 0) else {
        assert!(rt; false, "numbers out of range");
        return Ok(());
    };
    let Ok(mut node) = Node::open(alloc, disk, config, PlainInbox::new(alloc, 1)?) else {
        assert!(rt; false, "no node");
        return Ok(());
    };
    if node.opened != 0 {
        assert!(rt; false, "a message in an empty folder");
        return Ok(());
    }
    let mut queues = Queues::new(alloc);
    if queues.push(0).is_err() {
        assert!(rt; false, "no queue");
        return Ok(());
    }
    let body = Body::copy(alloc, b"hello")?;
    assert!(rt; node.put(0, Request::Publish { queues, body }).is_ok());
    assert!(rt; node.turn(0).is_ok());
    assert!(rt; node.write_step().is_ok());
    assert!(rt; node.put(0, Request::Get { queue: 0 }).is_ok());
    assert!(rt; node.turn(0).is_ok());
    let [
        _,
        Reply::Got {
            delivery,
            queue,
            body,
        },
    ] = node.replies(0)
    else {
        assert!(rt; false, "other replies");
        return Ok(());
    };
    assert_eq!(rt; *delivery, 0);
    assert_eq!(rt; *queue, 0);
    assert_eq!(rt; body.bytes(), b"ifmmp".as_slice());
    Ok(())
}
