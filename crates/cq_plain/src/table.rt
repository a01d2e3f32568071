// The rows of the table: when an event may follow the entries before it.
ghost use Rattle.std.specs.Prelude.{◌≡◌, ◌==◌, ◌&&◌, not, nat_lt, length, reverse, IfOk};
ghost use Rattle.cq_bytes.specs.Numbers.{contains};
ghost use Rattle.cq_journal.specs.History.{unacked, is_open, acked, settled, waiting};
ghost use Rattle.cq_journal.specs.Legal.{published, delivered, has, brings, is_publish, is_confirmed_by, is_dropped_by};
ghost use Rattle.cq_plain.specs.Table.{is_nothing, is_first, are_lines, are_queues, starts, allows, may_follow};

use crate::counts::{delivered, is_confirmed, is_dropped, is_known, is_published, published};
use crate::deliveries::{acked, count_of, has_delivery, open_deliveries};
use crate::opened::{are_lines, listed};
use crate::queue::{settled, waiting};
use cq_bytes::Queues;
use cq_journal::{Entry, Event, Lines};
use std::alloc::{AllocError, Global};

/// How many deliveries of a client may be open.
const MOST_OPEN: usize = 64;

/// How many deliveries of the client are open.
fn unacked(alloc: Global, entries: &[Entry], client: u32) -> Result<usize, AllocError>
    ensures { IfOk result (λ count. count ≡ length (unacked (reverse entries.now) client)) }
{
    Ok(count_of(&open_deliveries(alloc, entries)?, client))
}

/// Whether this delivery is open to the client.
fn is_open(alloc: Global, entries: &[Entry], client: u32, delivery: u32) -> Result<bool, AllocError>
    ensures { IfOk result (λ found. found ≡ is_open (reverse entries.now) client delivery) }
{
    Ok(has_delivery(&open_deliveries(alloc, entries)?, client, delivery))
}

/// The first opening, of messages that may stand in one.
fn may_open(alloc: Global, entries: &[Entry], lines: &Lines) -> Result<bool, AllocError>
    ensures { IfOk result (λ may. may ≡ (is_nothing (reverse entries.now) && are_lines lines.now)) }
{
    Ok(entries.is_empty() && are_lines(&listed(alloc, lines)?))
}

/// A publish under the client's next number, of a new id, to some queues.
fn may_publish(
    alloc: Global,
    entries: &[Entry],
    client: u32,
    number: u64,
    id: u128,
    queues: &Queues,
) -> Result<bool, AllocError>
    ensures { IfOk result
        (λ may. may ≡ (number == published (reverse entries.now) client && (not (has (brings id) (reverse entries.now)) && (not (id == 0) && (nat_lt 0 (length queues.now) && are_queues queues.now))))) }
{
    let next = published(entries, client) as u64;
    let known = is_known(alloc, entries, id)?;
    Ok(number == next && !known && id != 0 && !queues.numbers().is_empty())
}

/// A delivery of the first that waits, under the client's next number, with room for one more.
fn may_deliver(
    alloc: Global,
    entries: &[Entry],
    client: u32,
    delivery: u32,
    queue: u32,
    id: u128,
) -> Result<bool, AllocError>
    ensures { IfOk result
        (λ may. may ≡ (nat_lt (length (unacked (reverse entries.now) client)) 64 && (is_first id (waiting (reverse entries.now) queue) && delivery == delivered (reverse entries.now) client))) }
{
    let has_room = unacked(alloc, entries, client)? < MOST_OPEN;
    let is_first = waiting(alloc, entries, queue)?.first() == Some(&id);
    let next = delivered(entries, client);
    Ok(has_room && is_first && delivery as usize == next)
}

/// A get that finds nothing, with room for a delivery.
fn may_find_nothing(
    alloc: Global,
    entries: &[Entry],
    client: u32,
    queue: u32,
) -> Result<bool, AllocError>
    ensures { IfOk result
        (λ may. may ≡ (nat_lt (length (unacked (reverse entries.now) client)) 64 && is_nothing (waiting (reverse entries.now) queue))) }
{
    let has_room = unacked(alloc, entries, client)? < MOST_OPEN;
    let waits = waiting(alloc, entries, queue)?;
    Ok(has_room && waits.is_empty())
}

/// A get that is refused, with no room for a delivery.
fn may_be_busy(alloc: Global, entries: &[Entry], client: u32) -> Result<bool, AllocError>
    ensures { IfOk result (λ may. may ≡ (length (unacked (reverse entries.now) client) == 64)) }
{
    Ok(unacked(alloc, entries, client)? == MOST_OPEN)
}

/// A drop of an open delivery, once.
fn may_drop(
    alloc: Global,
    entries: &[Entry],
    client: u32,
    delivery: u32,
) -> Result<bool, AllocError>
    ensures { IfOk result
        (λ may. may ≡ (is_open (reverse entries.now) client delivery && not (has (is_dropped_by client delivery) (reverse entries.now)))) }
{
    Ok(is_open(alloc, entries, client, delivery)? && !is_dropped(entries, client, delivery))
}

/// A confirm of a publish, once.
fn may_confirm(entries: &[Entry], client: u32, number: u64, id: u128) -> bool
    ensures { result ≡
        (has (is_publish client number id) (reverse entries.now) && not
        (has (is_confirmed_by id) (reverse entries.now))) }
{
    is_published(entries, client, number, id) && !is_confirmed(entries, id)
}

/// A settling of what was removed, once.
fn may_settle(alloc: Global, entries: &[Entry], queue: u32, id: u128) -> Result<bool, AllocError>
    ensures { IfOk result
        (λ may. may ≡ (contains (acked (reverse entries.now) queue) id && not (contains (settled (reverse entries.now) queue) id))) }
{
    let removed = acked(alloc, entries, queue)?;
    let gone = settled(alloc, entries, queue)?;
    Ok(removed.contains(&id) && !gone.contains(&id))
}

/// Whether the row of the event allows it after the entries.
fn allows(alloc: Global, entries: &[Entry], event: &Event) -> Result<bool, AllocError>
    ensures { IfOk result (λ may. may ≡ allows (reverse entries.now) event.now) }
{
    match event {
        Event::Opened { lines } => may_open(alloc, entries, lines),
        Event::Published {
            client,
            number,
            id,
            queues,
            ..
        } => may_publish(alloc, entries, *client, *number, *id, queues),
        Event::Delivered {
            client,
            delivery,
            queue,
            id,
        } => may_deliver(alloc, entries, *client, *delivery, *queue, *id),
        Event::Empty { client, queue } => may_find_nothing(alloc, entries, *client, *queue),
        Event::Busy { client, .. } => may_be_busy(alloc, entries, *client),
        Event::Acked { client, delivery } => is_open(alloc, entries, *client, *delivery),
        Event::Unknown { client, delivery } => Ok(!is_open(alloc, entries, *client, *delivery)?),
        Event::Dropped { client, delivery } => may_drop(alloc, entries, *client, *delivery),
        Event::Ended { .. } => Ok(true),
        Event::Confirmed { client, number, id } => Ok(may_confirm(entries, *client, *number, *id)),
        Event::Settled { queue, id } => may_settle(alloc, entries, *queue, *id),
    }
}

/// Whether an opening is first.
fn starts(entries: &[Entry], event: &Event) -> bool
    ensures { result ≡ starts (reverse entries.now) event.now }
{
    !entries.is_empty() || matches!(event, Event::Opened { .. })
}

/// Whether the event may follow the entries.
pub(crate) fn may_follow(
    alloc: Global,
    entries: &[Entry],
    event: &Event,
) -> Result<bool, AllocError>
    ensures { IfOk result (λ may. may ≡ may_follow (reverse entries.now) event.now) }
{
    let allowed = allows(alloc, entries, event)?;
    Ok(allowed && starts(entries, event))
}
