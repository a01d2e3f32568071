// The text of a session whose entries are those of few or many clients.
ghost use Rattle.std.specs.Prelude.{◌<◌};

use cq_bytes::{Body, Queues};
use cq_io::MemSink;
use cq_journal::{Entry, Event, Journal, Session};
use cq_print::put_session;
use std::alloc::{AllocError, Global};
use std::io;
use std::time::CpuClock;

/// How many entries a message has.
const ENTRIES: u32 = 4;

/// Adds an event to a journal.
fn add(journal: &mut Journal, event: Event) -> Result<(), AllocError> {
    journal.reserve(1)?;
    journal.push(Entry { event, stamp: 0 });
    Ok(())
}

/// A publish of a message to queue 0.
fn published(alloc: Global, client: u32, number: u32, id: u128) -> Result<Event, AllocError> {
    let mut queues = Queues::new(alloc);
    if queues.push(0).is_err() {
        return Err(AllocError);
    }
    Ok(Event::Published {
        client,
        number: u64::from(number),
        id,
        queues,
        body: Body::copy(alloc, b"message!")?,
    })
}

/// Adds a message that a client publishes, gets and acknowledges, and that is confirmed.
fn add_message(
    alloc: Global,
    journal: &mut Journal,
    client: u32,
    number: u32,
    id: u128,
) -> Result<(), AllocError> {
    add(journal, published(alloc, client, number, id)?)?;
    let delivered = Event::Delivered {
        client,
        delivery: number,
        queue: 0,
        id,
    };
    add(journal, delivered)?;
    let acked = Event::Acked {
        client,
        delivery: number,
    };
    add(journal, acked)?;
    let confirmed = Event::Confirmed {
        client,
        number: u64::from(number),
        id,
    };
    add(journal, confirmed)
}

/// A session of so many messages, of so many clients in turn.
fn session(alloc: Global, messages: u32, clients: u32) -> Result<Session, AllocError>
    requires { 0 < clients }
{
    let mut journal = Journal::new(alloc);
    for message in 0..messages {
        let id = u128::from(message) + 1;
        add_message(
            alloc,
            &mut journal,
            message % clients,
            message / clients,
            id,
        )?;
    }
    Ok(Session {
        journal,
        cut: Vec::new(alloc),
        after: Vec::new(alloc),
    })
}

/// Puts the text of a session of so many messages of so many clients, and prints how long it is, and the nanoseconds of
/// the processor for each entry if they are wanted.
fn put_one<R: AllocGlobal + CpuClock + Print>(
    rt: &R,
    messages: u32,
    clients: u32,
    timed: bool,
) -> io::Result<()>
    requires { 0 < clients }
{
    let session = session(rt.alloc(), messages, clients)?;
    let mut sink = MemSink::new(rt.alloc(), Vec::new(rt.alloc()));
    let start = rt.thread_cpu_time()?;
    if put_session(rt.alloc(), 0, &session, &mut sink).is_err() {
        return println!(rt; "the text can't be put");
    }
    let spent = rt.thread_cpu_time()?.saturating_sub(start).as_nanos();
    let bytes = sink.taken().len();
    let entries = u128::from(messages) * u128::from(ENTRIES);
    if timed {
        println!(rt;
            "{entries} entries of {clients} clients: {bytes} bytes, {} ns each",
            spent / entries.max(1)
        )
    } else {
        println!(rt; "{entries} entries of {clients} clients: {bytes} bytes")
    }
}

/// Puts a small text, or large ones with the times that they take.
pub(crate) fn show<R: AllocGlobal + CpuClock + Print>(rt: &R, timed: bool) -> io::Result<()> {
    if !timed {
        return put_one(rt, 100, 16, false);
    }
    for messages in [2_500, 25_000] {
        put_one(rt, messages, 1, true)?;
        put_one(rt, messages, 16, true)?;
        put_one(rt, messages, 64, true)?;
    }
    Ok(())
}
