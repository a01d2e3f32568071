// The text of a session, one put a line.
ghost use Rattle.std.specs.Prelude.{◌≡◌, ◌++◌, ◌∷◌, [], IfOk, OnOk, reverse, length, if◌then◌else◌};
ghost use Rattle.std.specs.Ordering.{nat_cmp};
ghost use Rattle.std.specs.BTreeMap.{IsOrdered};
ghost use Rattle.cq_bytes.specs.Numbers.{contains};
ghost use Rattle.cq_disk.specs.Call.{CausedOf};
ghost use Rattle.cq_io.specs.Streams.{Adds};
ghost use Rattle.cq_journal.specs.Legal.{Legal};
ghost use Rattle.cq_print.specs.Text.{session_line, text_of, confirm_of, confirmed_lines, clients_end, is_delivery_to, opened_line, opened_by, opened_lines};
ghost use Rattle.cq_print.specs.Bodies.{shown};
ghost use Rattle.cq_print.specs.Counts.{counts_lines};
ghost use Rattle.cq_print.specs.Clients.{behind, lines_of};
ghost use Rattle.cq_print.specs.Lines.{answers, line_of, own_line, reply_lines, last_place, left_out, client_lines, clients_lines};

use crate::bodies::{bodies_of, body_of};
use crate::clients::{Clients, clients_of};
use crate::counts::counts_of;
use crate::lines::{
    acked_line, busy_line, confirmed_line, empty_line, ended_line, got_line, opened_line,
    published_line, session_line, unknown_line,
};
use cq_io::Sink;
use cq_journal::{Entry, Event, Session};
use std::alloc::{AllocError, Global};
use std::collections::BTreeMap;

/// Why a text wasn't put.
#[derive(Clone, Copy, Debug, PartialEq, Eq)]
pub enum PutError {
    /// The sink failed.
    Output,
    /// Memory ran out.
    Memory,
}

impl From<AllocError> for PutError {
    ghost use Rattle.cq_print.specs.declared.session.PutError.TheVariants.{Memory};

    ghost from_gives = { λ _ e. e ≡ Memory };

    fn from(_: AllocError) -> Self {
        PutError::Memory
    }
}

/// Whether an event answers the client.
fn answers(client: u32, event: &Event) -> bool
    ensures { result ≡ answers client event.now }
{
    match event {
        Event::Published { client: owner, .. }
        | Event::Delivered { client: owner, .. }
        | Event::Empty { client: owner, .. }
        | Event::Busy { client: owner, .. }
        | Event::Acked { client: owner, .. }
        | Event::Unknown { client: owner, .. }
        | Event::Ended { client: owner } => *owner == client,
        _ => false,
    }
}

/// The line of the reply that an event gives, and nothing where it gives none.
fn line_of(
    alloc: Global,
    event: &Event,
    bodies: &BTreeMap<u128, &[u8]>,
) -> Result<Vec<u8>, AllocError>
    ensures { IfOk result (λ line. line.items ≡ line_of (shown bodies.now) event.now) }
{
    match event {
        Event::Published { client, number, .. } => published_line(alloc, *client, *number),
        Event::Delivered {
            client,
            delivery,
            queue,
            id,
        } => got_line(alloc, *client, *delivery, *queue, body_of(bodies, *id)),
        Event::Empty { client, queue } => empty_line(alloc, *client, *queue),
        Event::Busy { client, queue } => busy_line(alloc, *client, *queue),
        Event::Acked { client, delivery } => acked_line(alloc, *client, *delivery),
        Event::Unknown { client, delivery } => unknown_line(alloc, *client, *delivery),
        Event::Ended { client } => ended_line(alloc, *client),
        _ => Ok(Vec::new(alloc)),
    }
}

/// Puts one line.
fn put_line<W: Sink>(sink: &mut W, line: &[u8]) -> Result<(), PutError>
    ensures ok { OnOk result (Adds (W.pieces sink.old) (W.pieces sink.new) (line.now ∷ [])) }
    ensures cause { CausedOf PutError.Output (W.faults sink.old) (W.faults sink.new) result }
{
    match sink.put(line) {
        Ok(()) => Ok(()),
        Err(_) => Err(PutError::Output),
    }
}

/// Puts the line of a queue with its count.
fn put_count<W: Sink>(alloc: Global, queue: u32, count: usize, sink: &mut W) -> Result<(), PutError>
    ensures ok { OnOk result (Adds (W.pieces sink.old) (W.pieces sink.new) (opened_line queue count ∷ [])) }
    ensures cause { CausedOf PutError.Output (W.faults sink.old) (W.faults sink.new) result }
{
    let line = opened_line(alloc, queue, count)?;
    put_line(sink, &line)
}

/// Puts the lines of queues with their counts, in the map's order.
fn put_counts<W: Sink>(
    alloc: Global,
    counts: &BTreeMap<u32, usize>,
    sink: &mut W,
) -> Result<(), PutError>
    ensures ok { OnOk result (Adds (W.pieces sink.old) (W.pieces sink.new) (counts_lines counts.now.entries)) }
    ensures cause { CausedOf PutError.Output (W.faults sink.old) (W.faults sink.new) result }
{
    for (queue, count) in counts {
        put_count(alloc, *queue, *count, sink)?;
    }
    Ok(())
}

/// Puts the lines of what the queues held at an opening, rising, and nothing for another event.
fn put_opening<W: Sink>(alloc: Global, event: &Event, sink: &mut W) -> Result<(), PutError>
    ensures ok { OnOk result (Adds (W.pieces sink.old) (W.pieces sink.new) (opened_by event.now)) }
    ensures cause { CausedOf PutError.Output (W.faults sink.old) (W.faults sink.new) result }
{
    let Event::Opened { lines } = event else {
        return Ok(());
    };
    let counts = counts_of(alloc, lines)?;
    put_counts(alloc, &counts, sink)
}

/// Puts the lines of what the queues held at the opening.
fn put_opened<W: Sink>(alloc: Global, entries: &[Entry], sink: &mut W) -> Result<(), PutError>
    ensures ok { OnOk result (Adds (W.pieces sink.old) (W.pieces sink.new) (opened_lines (reverse entries.now))) }
    ensures cause { CausedOf PutError.Output (W.faults sink.old) (W.faults sink.new) result }
{
    for entry in entries {
        put_opening(alloc, &entry.event, sink)?;
    }
    Ok(())
}

/// Puts the line of the event at a place, where it answers the client and isn't left out.
fn put_reply<W: Sink>(
    alloc: Global,
    client: u32,
    is_left_out: bool,
    event: &Event,
    bodies: &BTreeMap<u128, &[u8]>,
    sink: &mut W,
) -> Result<(), PutError>
    ensures ok { OnOk result
        (Adds (W.pieces sink.old) (W.pieces sink.new)
        (if is_left_out then [] else own_line (shown bodies.now) client event.now)) }
    ensures cause { CausedOf PutError.Output (W.faults sink.old) (W.faults sink.new) result }
{
    if is_left_out || !answers(client, event) {
        return Ok(());
    }
    let line = line_of(alloc, event, bodies)?;
    put_line(sink, &line)
}

/// Puts the reply lines of a client, but for one place.
fn put_replies<W: Sink>(
    alloc: Global,
    client: u32,
    left_out: usize,
    entries: &[&Entry],
    bodies: &BTreeMap<u128, &[u8]>,
    sink: &mut W,
) -> Result<(), PutError>
    ensures ok { OnOk result
        (Adds (W.pieces sink.old) (W.pieces sink.new)
        (reply_lines (shown bodies.now) client left_out (behind entries.now))) }
    ensures cause { CausedOf PutError.Output (W.faults sink.old) (W.faults sink.new) result }
{
    for (place, entry) in entries.iter().enumerate() {
        put_reply(alloc, client, place == left_out, &entry.event, bodies, sink)?;
    }
    Ok(())
}

/// Puts the line of an event that confirms a message of the client, and nothing for another.
fn put_confirm<W: Sink>(
    alloc: Global,
    client: u32,
    event: &Event,
    sink: &mut W,
) -> Result<(), PutError>
    ensures ok { OnOk result (Adds (W.pieces sink.old) (W.pieces sink.new) (confirm_of client event.now)) }
    ensures cause { CausedOf PutError.Output (W.faults sink.old) (W.faults sink.new) result }
{
    let Event::Confirmed {
        client: owner,
        number,
        ..
    } = event
    else {
        return Ok(());
    };
    if *owner != client {
        return Ok(());
    }
    let line = confirmed_line(alloc, client, *number)?;
    put_line(sink, &line)
}

/// Puts the confirms of a client.
fn put_confirms<W: Sink>(
    alloc: Global,
    client: u32,
    entries: &[&Entry],
    sink: &mut W,
) -> Result<(), PutError>
    ensures ok { OnOk result
        (Adds (W.pieces sink.old) (W.pieces sink.new) (confirmed_lines (behind entries.now) client)) }
    ensures cause { CausedOf PutError.Output (W.faults sink.old) (W.faults sink.new) result }
{
    for entry in entries {
        put_confirm(alloc, client, &entry.event, sink)?;
    }
    Ok(())
}

/// Whether an event is a delivery to the client.
fn is_delivery_to(client: u32, event: &Event) -> bool
    ensures { result ≡ is_delivery_to client event.now }
{
    match event {
        Event::Delivered { client: owner, .. } => *owner == client,
        _ => false,
    }
}

/// The place of the last delivery to the client, and the number of entries where there is none.
fn last_place(client: u32, entries: &[&Entry]) -> usize
    ensures { result ≡ last_place (length entries.now) client (behind entries.now) }
{
    let mut last = entries.len();
    for (place, entry) in entries.iter().enumerate() {
        if is_delivery_to(client, &entry.event) {
            last = place;
        }
    }
    last
}

/// The place that is left out: that of the last delivery to a client that was cut off, and none of another.
fn left_out(client: u32, entries: &[&Entry], cut: &[u32]) -> usize
    ensures { result ≡ left_out (behind entries.now) cut.now client }
{
    if cut.contains(&client) {
        return last_place(client, entries);
    }
    entries.len()
}

/// Puts the lines of a client, by the entries that concern it.
fn put_client<W: Sink>(
    alloc: Global,
    client: u32,
    entries: &[&Entry],
    cut: &[u32],
    bodies: &BTreeMap<u128, &[u8]>,
    sink: &mut W,
) -> Result<(), PutError>
    ensures ok { OnOk result
        (Adds (W.pieces sink.old) (W.pieces sink.new)
        (client_lines (shown bodies.now) (behind entries.now) cut.now client)) }
    ensures cause { CausedOf PutError.Output (W.faults sink.old) (W.faults sink.new) result }
{
    let place = left_out(client, entries, cut);
    put_replies(alloc, client, place, entries, bodies, sink)?;
    put_confirms(alloc, client, entries, sink)
}

/// Puts the lines of clients by their entries, in the map's order.
fn put_all<W: Sink>(
    alloc: Global,
    clients: &Clients<'_>,
    cut: &[u32],
    bodies: &BTreeMap<u128, &[u8]>,
    sink: &mut W,
) -> Result<(), PutError>
    ensures ok { OnOk result
        (Adds (W.pieces sink.old) (W.pieces sink.new) (lines_of (shown bodies.now) cut.now clients.now.entries)) }
    ensures cause { CausedOf PutError.Output (W.faults sink.old) (W.faults sink.new) result }
    ensures ordered { IsOrdered nat_cmp clients.now }
{
    for (client, entries) in clients {
        put_client(alloc, *client, entries, cut, bodies, sink)?;
    }
    Ok(())
}

/// Puts the lines of all clients, rising. All entries are walked once, and then those of each client alone.
fn put_clients<W: Sink>(
    alloc: Global,
    entries: &[Entry],
    cut: &[u32],
    bodies: &BTreeMap<u128, &[u8]>,
    sink: &mut W,
) -> Result<(), PutError>
    ensures ok { OnOk result
        (Adds (W.pieces sink.old) (W.pieces sink.new)
        (clients_lines (shown bodies.now) (reverse entries.now) cut.now (clients_end (reverse entries.now)))) }
    ensures cause { CausedOf PutError.Output (W.faults sink.old) (W.faults sink.new) result }
{
    let clients = clients_of(alloc, entries)?;
    put_all(alloc, &clients, cut, bodies, sink)
}

/// Puts the text of a session, with the bodies that are found by their ids.
fn put_text<W: Sink>(
    alloc: Global,
    number: u64,
    entries: &[Entry],
    cut: &[u32],
    bodies: &BTreeMap<u128, &[u8]>,
    sink: &mut W,
) -> Result<(), PutError>
    ensures ok { OnOk result
        (Adds (W.pieces sink.old) (W.pieces sink.new)
        (session_line number ∷
        (opened_lines (reverse entries.now) ++ clients_lines (shown bodies.now) (reverse entries.now) cut.now
        (clients_end (reverse entries.now))))) }
    ensures cause { CausedOf PutError.Output (W.faults sink.old) (W.faults sink.new) result }
{
    let head = session_line(alloc, number)?;
    put_line(sink, &head)?;
    put_opened(alloc, entries, sink)?;
    put_clients(alloc, entries, cut, bodies, sink)
}

/// Puts the text of the session with this number: `session K`; then `opened qQ COUNT` for each queue, rising, that held
/// messages at the opening; then for each client, rising, the lines of its replies in order, without the last delivery
/// of a client that was cut off, and its confirms in order. Each line is one put. `Output` comes only where the sink
/// failed. A journal that isn't legal may be shown with other bodies.
pub fn put_session<W: Sink>(
    alloc: Global,
    number: u64,
    session: &Session,
    sink: &mut W,
) -> Result<(), PutError>
    ensures ok { Legal session.now.journal.entries
        → OnOk result (Adds (W.pieces sink.old) (W.pieces sink.new) (text_of number session.now.journal.entries session.now.cut.items)) }
    ensures cause { CausedOf PutError.Output (W.faults sink.old) (W.faults sink.new) result }
{
    let entries = session.journal.entries();
    let bodies = bodies_of(alloc, entries)?;
    put_text(alloc, number, entries, &session.cut, &bodies, sink)
}
