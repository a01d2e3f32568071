// A journal and opened lines with ample memory.
use crate::{Entry, Event, Journal, Lines};
use cq_bytes::Body;
use std::test::Fail;

#[test]
fn entries_stand_in_order(rt: HostRuntime) -> Result<(), Fail> {
    let alloc = rt.alloc();
    let mut journal = Journal::new(alloc);
    journal.reserve(2)?;
    journal.push(Entry {
        event: Event::Opened {
            lines: Lines::new(alloc),
        },
        stamp: 0,
    });
    journal.push(Entry {
        event: Event::Ended { client: 3 },
        stamp: 7,
    });
    let entries = journal.entries();
    assert_eq!(rt; entries.len(), 2);
    assert_eq!(rt; entries[1].stamp, 7);
    assert!(rt; matches!(entries[1].event, Event::Ended { client: 3 }));
    Ok(())
}

#[test]
fn lines_are_found_by_place(rt: HostRuntime) -> Result<(), Fail> {
    let alloc = rt.alloc();
    let mut lines = Lines::new(alloc);
    lines.push(2, 9, Body::copy(alloc, b"hi")?)?;
    assert!(rt; lines.line(1).is_none());
    let Some((queue, id, body)) = lines.line(0) else {
        assert!(rt; false, "no line");
        return Ok(());
    };
    assert_eq!(rt; queue, 2);
    assert_eq!(rt; id, 9);
    assert_eq!(rt; body, b"hi".as_slice());
    Ok(())
}
