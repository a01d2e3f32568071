// Messages with ample memory.
use crate::Pending;
use cq_bytes::Body;
use std::test::Fail;

#[test]
fn messages_come_and_go_in_order(rt: HostRuntime) -> Result<(), Fail> {
    let alloc = rt.alloc();
    let mut pending = Pending::new(alloc);
    assert_eq!(rt; pending.at(0), None);
    assert!(rt; pending.body(7).is_none());
    pending.add(7, Body::copy(alloc, b"seven")?)?;
    assert!(rt; pending.body(5).is_none());
    pending.add(5, Body::copy(alloc, b"")?)?;
    assert_eq!(rt; pending.at(0), Some(7));
    assert_eq!(rt; pending.at(1), Some(5));
    assert_eq!(rt; pending.at(2), None);
    assert_eq!(rt;
        pending.body(7).map(|body| body.bytes()),
        Some(b"seven".as_slice())
    );
    pending.take_front(1);
    assert_eq!(rt; pending.at(0), Some(5));
    assert!(rt; pending.body(7).is_none());
    pending.take_front(1);
    assert_eq!(rt; pending.at(0), None);
    Ok(())
}
