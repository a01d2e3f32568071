// The limits of a configuration, an inbox and words.
ghost use Rattle.std.specs.Prelude.{◌≡◌, ◌<◌, length};

use crate::{Config, Flags, Inbox, PlainFlags, PlainInbox, Request};
use std::test::Fail;

/// Puts 64 requests of the client 0, and counts those that are held.
fn fill(inbox: &mut PlainInbox) -> u32
    requires { 0 < length inbox.old }
    ensures { length inbox.new ≡ length inbox.old }
{
    let mut held = 0;
    for delivery in 0..64 {
        if inbox.put(0, Request::Ack { delivery }).is_ok() {
            held += 1;
        }
    }
    held
}

#[test]
fn numbers_out_of_range_are_refused(rt: HostRuntime) {
    assert!(rt; Config::new(1, 16, 1, 4096, 0).is_some());
    assert!(rt; Config::new(64, 4096, 65_536, 16_777_216, 7).is_some());
    assert!(rt; Config::new(0, 16, 1, 4096, 0).is_none());
    assert!(rt; Config::new(65, 16, 1, 4096, 0).is_none());
    assert!(rt; Config::new(1, 15, 1, 4096, 0).is_none());
    assert!(rt; Config::new(1, 4097, 1, 4096, 0).is_none());
    assert!(rt; Config::new(1, 16, 0, 4096, 0).is_none());
    assert!(rt; Config::new(1, 16, 65_537, 4096, 0).is_none());
    assert!(rt; Config::new(1, 16, 1, 4095, 0).is_none());
    assert!(rt; Config::new(1, 16, 1, 16_777_217, 0).is_none());
}

#[test]
fn the_oldest_is_taken(rt: HostRuntime) -> Result<(), Fail> {
    let mut inbox = PlainInbox::new(rt.alloc(), 2)?;
    assert!(rt; inbox.put(1, Request::Get { queue: 3 }).is_ok());
    assert!(rt; inbox.put(1, Request::Ack { delivery: 5 }).is_ok());
    assert!(rt; inbox.next(0).is_none());
    assert!(rt; matches!(inbox.next(1), Some(Request::Get { queue: 3 })));
    assert!(rt; matches!(inbox.next(1), Some(Request::Ack { delivery: 5 })));
    assert!(rt; inbox.next(1).is_none());
    Ok(())
}

#[test]
fn a_word_is_dropped_once(rt: HostRuntime) -> Result<(), Fail> {
    let mut flags = PlainFlags::new(rt.alloc(), 2)?;
    let early = flags.drop_delivery(1, 7);
    flags.open_word(1, 7);
    let before = flags.dropped(1, 7);
    let other_client = flags.drop_delivery(0, 7);
    let first = flags.drop_delivery(1, 7);
    let second = flags.drop_delivery(1, 7);
    let after = flags.dropped(1, 7);
    flags.close_word(1, 7);
    let late = flags.drop_delivery(1, 7);
    assert!(rt; first && after);
    assert!(rt; !(early || before || other_client || second || late));
    Ok(())
}

#[test]
fn the_sixty_fifth_request_comes_back(rt: HostRuntime) -> Result<(), Fail> {
    let mut inbox = PlainInbox::new(rt.alloc(), 2)?;
    assert!(rt; fill(&mut inbox) == 64);
    let back = inbox.put(0, Request::Get { queue: 9 });
    assert!(rt; matches!(back, Err(Request::Get { queue: 9 })));
    assert!(rt; matches!(inbox.next(0), Some(Request::Ack { delivery: 0 })));
    Ok(())
}
