// Requests that are kept in order, and words that are closed.
use crate::{Kept, Kind, close_all, fetch};
use cq_client::OpenDelivery;
use cq_inbox::{Flags, PlainFlags, PlainInbox, Request};
use std::test::Fail;

#[test]
fn a_client_s_oldest_request_is_kept(rt: HostRuntime) -> Result<(), Fail> {
    let mut kept = Kept::new(rt.alloc(), 2)?;
    let mut inbox = PlainInbox::new(rt.alloc(), 2)?;
    let put = inbox.put(1, Request::Get { queue: 7 }).is_ok();
    let more = inbox.put(1, Request::End).is_ok();
    let none = fetch(&mut kept, &mut inbox, 0);
    let first = fetch(&mut kept, &mut inbox, 1);
    let again = fetch(&mut kept, &mut inbox, 1);
    assert!(rt; put && more && !none && first && again);
    if again {
        let kind = kept.kind(1);
        assert!(rt; kind == Kind::Get { queue: 7 });
    }
    let taken = kept.take(1);
    assert!(rt; matches!(taken, Some(Request::Get { queue: 7 })));
    assert!(rt; kept.get(0).is_none() && kept.get(1).is_none());
    Ok(())
}

#[test]
fn words_are_closed(rt: HostRuntime) -> Result<(), Fail> {
    let mut flags = PlainFlags::new(rt.alloc(), 1)?;
    flags.open_word(0, 4);
    let open = OpenDelivery {
        delivery: 4,
        queue: 0,
    };
    close_all(&mut flags, 0, &[open]);
    let dropped = flags.drop_delivery(0, 4);
    assert!(rt; !dropped);
    Ok(())
}
