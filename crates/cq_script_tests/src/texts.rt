// Lines and sessions, with the texts of worked examples.
use cq_bytes::{Body, Queues};
use cq_io::MemSink;
use cq_journal::{Entry, Event, Journal, Lines, Reply, Session};
use cq_print::{body_text, put_session, reply_line};
use std::alloc::{AllocError, Global};
use std::test::Fail;

/// Whether a reply to client 3 has this line.
fn is_line(alloc: Global, reply: &Reply, text: &str) -> Result<bool, AllocError> {
    Ok(reply_line(alloc, 3, reply)?.as_slice() == text.as_bytes())
}

#[test]
fn a_message_that_is_handed_out_has_its_line(rt: HostRuntime) -> Result<(), Fail> {
    let alloc = rt.alloc();
    let reply = Reply::Got {
        delivery: 1,
        queue: 2,
        body: Body::copy(alloc, b"hello")?,
    };
    assert!(rt; is_line(alloc, &reply, "c3 got 1 q2 5 text hello\n")?);
    Ok(())
}

#[test]
fn other_replies_to_publishes_and_gets_have_their_lines(rt: HostRuntime) -> Result<(), Fail> {
    let alloc = rt.alloc();
    assert!(rt; is_line(alloc, &Reply::Published { number: 7 }, "c3 published 7\n")?);
    assert!(rt; is_line(alloc, &Reply::Empty { queue: 9 }, "c3 empty q9\n")?);
    assert!(rt; is_line(alloc, &Reply::Busy { queue: 0 }, "c3 busy q0\n")?);
    Ok(())
}

#[test]
fn replies_to_acknowledgements_have_their_lines(rt: HostRuntime) -> Result<(), Fail> {
    let alloc = rt.alloc();
    assert!(rt; is_line(alloc, &Reply::Acked { delivery: 4 }, "c3 acked 4\n")?);
    assert!(rt; is_line(alloc, &Reply::Unknown { delivery: 0 }, "c3 unknown 0\n")?);
    assert!(rt; is_line(alloc, &Reply::Ended, "c3 ended\n")?);
    Ok(())
}

/// Bodies, and the text of each.
const BODIES: [(&str, &str); 6] = [
    ("", "empty"),
    ("!~", "text !~"),
    ("a b", "hex 612062"),
    ("\n\x7f", "hex 0a7f"),
    (
        "abcdefghbcdefghicdefghijdefghijkefghijklfghijklmghijklmnhijklmnoijklmnopjklmnopqklmnopqrlmnopqrsmnopqrstnopqrstu",
        "sha256 cf5b16a778af8380036ce59e7b0492370b249b11e8f07a51afac45037afee9d1",
    ),
    (
        "aaaaaaaaaaaaaaaa aaaaaaaaaaaaaaa",
        "hex 6161616161616161616161616161616120616161616161616161616161616161",
    ),
];

/// Whether a body has this text.
fn is_shown(alloc: Global, body: &str, text: &str) -> Result<bool, AllocError> {
    Ok(body_text(alloc, body.as_bytes())?.as_slice() == text.as_bytes())
}

#[test]
fn each_kind_of_body_has_its_text(rt: HostRuntime) -> Result<(), Fail> {
    let alloc = rt.alloc();
    for (body, text) in &BODIES {
        assert!(rt; is_shown(alloc, body, text)?, "{text}");
    }
    Ok(())
}

/// A publish of a message to queue 0.
fn published(
    alloc: Global,
    client: u32,
    number: u64,
    id: u128,
    text: &str,
) -> Result<Event, AllocError> {
    let mut queues = Queues::new(alloc);
    if queues.push(0).is_err() || text.len() > Body::MOST_BYTES {
        return Err(AllocError);
    }
    Ok(Event::Published {
        client,
        number,
        id,
        queues,
        body: Body::copy(alloc, text.as_bytes())?,
    })
}

/// A delivery from queue 0 to a client.
fn delivered(client: u32, delivery: u32, id: u128) -> Event {
    Event::Delivered {
        client,
        delivery,
        queue: 0,
        id,
    }
}

/// That a client's first publish is on disk.
fn confirmed(client: u32, id: u128) -> Event {
    Event::Confirmed {
        client,
        number: 0,
        id,
    }
}

/// Adds an event to a journal.
fn add(journal: &mut Journal, event: Event) -> Result<(), AllocError> {
    journal.reserve(1)?;
    journal.push(Entry { event, stamp: 0 });
    Ok(())
}

/// Adds events to a journal.
fn add_all(journal: &mut Journal, events: Vec<Event>) -> Result<(), AllocError> {
    for event in events {
        add(journal, event)?;
    }
    Ok(())
}

/// A journal of an opening of these messages and no others.
fn opened(alloc: Global, lines: Lines) -> Result<Journal, AllocError> {
    let mut journal = Journal::new(alloc);
    add(&mut journal, Event::Opened { lines })?;
    Ok(journal)
}

/// A journal of an opening of an empty folder, and publishes: the client and its number, the id and the text.
fn publishes(alloc: Global, rows: &[(u32, u64, u128, &str)]) -> Result<Journal, AllocError> {
    let mut journal = opened(alloc, Lines::new(alloc))?;
    for (client, number, id, text) in rows {
        let event = published(alloc, *client, *number, *id, text)?;
        add(&mut journal, event)?;
    }
    Ok(journal)
}

/// The text of the session with this number over this journal.
fn text_of(
    alloc: Global,
    number: u64,
    journal: Journal,
    cut: Vec<u32>,
) -> Result<MemSink, AllocError> {
    let session = Session {
        journal,
        cut,
        after: Vec::new(alloc),
    };
    let mut sink = MemSink::new(alloc, Vec::new(alloc));
    match put_session(alloc, number, &session, &mut sink) {
        Ok(()) => Ok(sink),
        Err(_) => Err(AllocError),
    }
}

/// The publishes of two clients, of which the first gets both messages and then finds none, and both are confirmed.
fn two_clients(alloc: Global) -> Result<Journal, AllocError> {
    let mut journal = publishes(alloc, &[(1, 0, 1, "other"), (0, 0, 2, "hello")])?;
    let empty = Event::Empty {
        client: 0,
        queue: 0,
    };
    let events = vec![in alloc;
        confirmed(0, 2),
        delivered(0, 0, 1),
        delivered(0, 1, 2),
        empty,
        confirmed(1, 1),
    ]?;
    add_all(&mut journal, events)?;
    Ok(journal)
}

#[test]
fn a_session_is_put_client_by_client(rt: HostRuntime) -> Result<(), Fail> {
    let alloc = rt.alloc();
    let sink = text_of(alloc, 0, two_clients(alloc)?, Vec::new(alloc))?;
    let text =
        "session 0\nc0 published 0\nc0 got 0 q0 5 text other\nc0 got 1 q0 5 text hello\nc0 empty q0\nc0 confirmed 0\nc1 published 0\nc1 confirmed 0\n";
    assert!(rt; sink.taken() == text.as_bytes());
    Ok(())
}

/// Two publishes of a client, which gets both messages.
fn two_deliveries(alloc: Global) -> Result<Journal, AllocError> {
    let mut journal = publishes(alloc, &[(0, 0, 1, "m0"), (0, 1, 2, "m1")])?;
    add(&mut journal, delivered(0, 0, 1))?;
    add(&mut journal, delivered(0, 1, 2))?;
    Ok(journal)
}

#[test]
fn a_delivery_that_was_cut_off_is_not_told(rt: HostRuntime) -> Result<(), Fail> {
    let alloc = rt.alloc();
    let sink = text_of(alloc, 0, two_deliveries(alloc)?, vec![in alloc; 0]?)?;
    let text = "session 0\nc0 published 0\nc0 published 1\nc0 got 0 q0 2 text m0\n";
    assert!(rt; sink.taken() == text.as_bytes());
    Ok(())
}

/// What three clients get and acknowledge, and which of their publishes are confirmed.
fn gets_of_three(alloc: Global) -> Result<Vec<Event>, AllocError> {
    let acked = Event::Acked {
        client: 0,
        delivery: 0,
    };
    let events = vec![in alloc;
        delivered(0, 0, 1),
        delivered(2, 0, 2),
        confirmed(2, 1),
        acked,
        delivered(0, 1, 3),
        delivered(1, 0, 4),
        confirmed(1, 3),
        confirmed(0, 2),
    ]?;
    Ok(events)
}

/// The publishes of three clients, and what they get.
fn three_clients(alloc: Global) -> Result<Journal, AllocError> {
    let rows = [
        (2, 0, 1, "m0"),
        (0, 0, 2, "m1"),
        (1, 0, 3, "m2"),
        (1, 1, 4, "m3"),
    ];
    let mut journal = publishes(alloc, &rows)?;
    add_all(&mut journal, gets_of_three(alloc)?)?;
    Ok(journal)
}

#[test]
fn of_three_clients_two_were_cut_off(rt: HostRuntime) -> Result<(), Fail> {
    let alloc = rt.alloc();
    let sink = text_of(alloc, 2, three_clients(alloc)?, vec![in alloc; 0, 2]?)?;
    let text =
        "session 2\nc0 published 0\nc0 got 0 q0 2 text m0\nc0 acked 0\nc0 confirmed 0\nc1 published 0\nc1 published 1\nc1 got 0 q0 2 text m3\nc1 confirmed 0\nc2 published 0\nc2 confirmed 0\n";
    assert!(rt; sink.taken() == text.as_bytes());
    Ok(())
}

/// A message in each of these queues, with the ids from 1 on.
fn lines_of(alloc: Global, queues: &[u32]) -> Result<Lines, AllocError> {
    let mut lines = Lines::new(alloc);
    for (place, queue) in queues.iter().enumerate() {
        lines.push(*queue, place as u128 + 1, Body::copy(alloc, b"m")?)?;
    }
    Ok(lines)
}

/// The text of the session 1 over a folder that held a message in each of these queues: its opening and one get.
fn text_over(alloc: Global, queues: &[u32]) -> Result<MemSink, AllocError> {
    let mut journal = opened(alloc, lines_of(alloc, queues)?)?;
    let empty = Event::Empty {
        client: 0,
        queue: 1,
    };
    add(&mut journal, empty)?;
    text_of(alloc, 1, journal, Vec::new(alloc))
}

#[test]
fn what_the_queues_held_stands_before_the_clients(rt: HostRuntime) -> Result<(), Fail> {
    let low = text_over(rt.alloc(), &[0, 7, 0])?;
    let text = "session 1\nopened q0 2\nopened q7 1\nc0 empty q1\n";
    assert!(rt; low.taken() == text.as_bytes());
    let high = text_over(rt.alloc(), &[7, 4_294_967_295, 7])?;
    let text = "session 1\nopened q7 2\nopened q4294967295 1\nc0 empty q1\n";
    assert!(rt; high.taken() == text.as_bytes());
    Ok(())
}
