// A client that is answered in each way.
use crate::Client;
use cq_bytes::Body;
use cq_journal::Reply;
use std::test::Fail;

#[test]
fn a_client_keeps_what_it_was_answered(rt: HostRuntime) -> Result<(), Fail> {
    let mut client = Client::new(rt.alloc())?;
    client.reserve()?;
    client.publish();
    client.reserve()?;
    client.deliver(3, Body::copy(rt.alloc(), b"hi")?);
    client.reserve()?;
    client.empty(4);
    client.reserve()?;
    client.busy(5);
    let queue = client.queue_of(0);
    client.reserve()?;
    client.ack(0);
    client.reserve()?;
    client.unknown(0);
    client.reserve()?;
    client.end();
    assert!(rt; queue == Some(3) && client.queue_of(0).is_none());
    assert!(rt; client.published() == 1 && client.delivered() == 1);
    assert!(rt; client.opens().is_empty() && !client.is_full());
    let replies = client.replies();
    assert!(rt; matches!(replies.get(0), Some(Reply::Published { number: 0 })));
    assert!(rt;
        matches!(
            replies.get(1),
            Some(Reply::Got {
                delivery: 0,
                queue: 3,
                ..
            })
        )
    );
    assert!(rt; matches!(replies.get(2), Some(Reply::Empty { queue: 4 })));
    assert!(rt; matches!(replies.get(3), Some(Reply::Busy { queue: 5 })));
    assert!(rt; matches!(replies.get(4), Some(Reply::Acked { delivery: 0 })));
    assert!(rt; matches!(replies.get(5), Some(Reply::Unknown { delivery: 0 })));
    assert!(rt; matches!(replies.get(6), Some(Reply::Ended)));
    Ok(())
}
