// How often, and whether, an event of some kind stands in a history.
ghost use Rattle.std.specs.Prelude.{◌≡◌, ◌==◌, ◌≤◌, reverse, IfOk};
ghost use Rattle.std.specs.List.{list_any};
ghost use Rattle.cq_journal.specs.Legal.{publish_count, delivers, published, delivered, has, brings, is_publish, is_confirmed_by, is_dropped_by};

use crate::opened::listed;
use cq_journal::{Entry, Event, Line};
use std::alloc::{AllocError, Global};

/// 1 where the event is a publish of the client, and else 0.
fn publish_count(client: u32, event: &Event) -> usize
    ensures same { result ≡ publish_count client event.now }
    ensures small { result ≤ 1 }
{
    match event {
        Event::Published { client: owner, .. } => usize::from(*owner == client),
        _ => 0,
    }
}

/// 1 where the event is a delivery to the client, and else 0.
fn delivers(client: u32, event: &Event) -> usize
    ensures same { result ≡ delivers client event.now }
    ensures small { result ≤ 1 }
{
    match event {
        Event::Delivered { client: owner, .. } => usize::from(*owner == client),
        _ => 0,
    }
}

/// How many publishes of the client there are.
pub(crate) fn published(entries: &[Entry], client: u32) -> usize
    ensures { result ≡ published (reverse entries.now) client }
{
    let mut count = 0;
    for entry in entries {
        count += publish_count(client, &entry.event);
    }
    count
}

/// How many deliveries to the client there are.
pub(crate) fn delivered(entries: &[Entry], client: u32) -> usize
    ensures { result ≡ delivered (reverse entries.now) client }
{
    let mut count = 0;
    for entry in entries {
        count += delivers(client, &entry.event);
    }
    count
}

/// Whether one of the messages has this id.
fn has_line(lines: &[Line], id: u128) -> bool
    ensures { result ≡ list_any (λ l. l.id == id) lines.now }
{
    lines.iter().any(|line| line.id == id)
}

/// Whether the event brings a message with this id.
fn brings(alloc: Global, id: u128, event: &Event) -> Result<bool, AllocError>
    ensures { IfOk result (λ found. found ≡ brings id event.now) }
{
    match event {
        Event::Opened { lines } => Ok(has_line(&listed(alloc, lines)?, id)),
        Event::Published { id: brought, .. } => Ok(*brought == id),
        _ => Ok(false),
    }
}

/// Whether some event brings a message with this id.
pub(crate) fn is_known(alloc: Global, entries: &[Entry], id: u128) -> Result<bool, AllocError>
    ensures { IfOk result (λ found. found ≡ has (brings id) (reverse entries.now)) }
{
    let mut found = false;
    for entry in entries {
        found = brings(alloc, id, &entry.event)? || found;
    }
    Ok(found)
}

/// Whether the event is this publish.
fn is_publish(client: u32, number: u64, id: u128, event: &Event) -> bool
    ensures { result ≡ is_publish client number id event.now }
{
    match event {
        Event::Published {
            client: owner,
            number: place,
            id: brought,
            ..
        } => *owner == client && *place == number && *brought == id,
        _ => false,
    }
}

/// Whether this publish is there.
pub(crate) fn is_published(entries: &[Entry], client: u32, number: u64, id: u128) -> bool
    ensures { result ≡ has (is_publish client number id) (reverse entries.now) }
{
    let mut found = false;
    for entry in entries {
        found = is_publish(client, number, id, &entry.event) || found;
    }
    found
}

/// Whether the event confirms the message with this id.
fn is_confirmed_by(id: u128, event: &Event) -> bool
    ensures { result ≡ is_confirmed_by id event.now }
{
    match event {
        Event::Confirmed { id: sure, .. } => *sure == id,
        _ => false,
    }
}

/// Whether the message with this id is confirmed.
pub(crate) fn is_confirmed(entries: &[Entry], id: u128) -> bool
    ensures { result ≡ has (is_confirmed_by id) (reverse entries.now) }
{
    let mut found = false;
    for entry in entries {
        found = is_confirmed_by(id, &entry.event) || found;
    }
    found
}

/// Whether the event says that this delivery was dropped.
fn is_dropped_by(client: u32, delivery: u32, event: &Event) -> bool
    ensures { result ≡ is_dropped_by client delivery event.now }
{
    match event {
        Event::Dropped {
            client: owner,
            delivery: number,
        } => *owner == client && *number == delivery,
        _ => false,
    }
}

/// Whether this delivery was dropped.
pub(crate) fn is_dropped(entries: &[Entry], client: u32, delivery: u32) -> bool
    ensures { result ≡ has (is_dropped_by client delivery) (reverse entries.now) }
{
    let mut found = false;
    for entry in entries {
        found = is_dropped_by(client, delivery, &entry.event) || found;
    }
    found
}
