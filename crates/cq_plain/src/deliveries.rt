// The deliveries that are open.
ghost use Rattle.std.specs.Prelude.{◌≡◌, ◌==◌, ◌&&◌, ◌++◌, reverse, filter, map, length, IfOk, OnOk};
ghost use Rattle.std.specs.List.{list_any};
ghost use Rattle.cq_journal.specs.History.{is_delivery, open_after, open_deliveries, is_out, removes, acked};

use cq_journal::{Entry, Event};
use std::alloc::{AllocError, Global};
use std::marker::Model;

/// A message that was handed to a client. A contract sees the delivery of the definitions.
#[derive(Debug, Drop)]
pub(crate) struct Handed {
    client: u32,
    number: u32,
    queue: u32,
    id: u128,
}

impl Model for Handed {
    ghost use Rattle.cq_journal.specs.History.{Delivery};

    ghost Value = { Delivery };

    ghost view = { λ h. record { client = h.client; number = h.number; queue = h.queue; id = h.id } };
}

impl Handed {
    /// Whether it was handed to the client.
    fn is_to(&self, client: u32) -> bool
        ensures { result ≡ (self.now.client == client) }
    {
        self.client == client
    }

    /// Whether it is this delivery of the client.
    fn is_delivery(&self, client: u32, number: u32) -> bool
        ensures { result ≡ is_delivery client number self.now }
    {
        self.client == client && self.number == number
    }

    /// Whether it was handed out by the queue.
    fn is_from(&self, queue: u32) -> bool
        ensures { result ≡ (self.now.queue == queue) }
    {
        self.queue == queue
    }

    /// Whether it names this message of the queue.
    fn names(&self, queue: u32, id: u128) -> bool
        ensures { result ≡ (self.now.queue == queue && self.now.id == id) }
    {
        self.queue == queue && self.id == id
    }

    /// The message's id.
    fn id(&self) -> u128
        ensures { result ≡ self.now.id }
    {
        self.id
    }
}

/// Makes of the open deliveries those after an event.
fn follow(out: &mut Vec<Handed>, event: &Event) -> Result<(), AllocError>
    ensures { OnOk result (out.new.items ≡ open_after out.old.items event.now) }
{
    match event {
        Event::Delivered {
            client,
            delivery,
            queue,
            id,
        } => {
            out.push(Handed {
                client: *client,
                number: *delivery,
                queue: *queue,
                id: *id,
            })?;
        }
        Event::Acked { client, delivery } => {
            out.retain(|handed| !handed.is_delivery(*client, *delivery));
        }
        Event::Ended { client } => {
            out.retain(|handed| !handed.is_to(*client));
        }
        _ => {}
    }
    Ok(())
}

/// The open deliveries of a history, the oldest first.
pub(crate) fn open_deliveries(alloc: Global, entries: &[Entry]) -> Result<Vec<Handed>, AllocError>
    ensures { IfOk result (λ out. out.items ≡ open_deliveries (reverse entries.now)) }
{
    let mut out = Vec::new(alloc);
    for entry in entries {
        follow(&mut out, &entry.event)?;
    }
    Ok(out)
}

/// How many of the deliveries are the client's.
pub(crate) fn count_of(out: &[Handed], client: u32) -> usize
    ensures { result ≡ length (filter (λ d. d.client == client) out.now) }
{
    out.iter().filter(|handed| handed.is_to(client)).count()
}

/// Whether one of the deliveries is this one.
pub(crate) fn has_delivery(out: &[Handed], client: u32, number: u32) -> bool
    ensures { result ≡ list_any (is_delivery client number) out.now }
{
    out.iter().any(|handed| handed.is_delivery(client, number))
}

/// Whether one of the deliveries names this message of the queue.
pub(crate) fn is_out(out: &[Handed], queue: u32, id: u128) -> bool
    ensures { result ≡ is_out out.now queue id }
{
    out.iter().any(|handed| handed.names(queue, id))
}

/// Adds the ids that this delivery of the client names for the queue.
fn push_named(
    removed: &mut Vec<u128>,
    queue: u32,
    out: &[Handed],
    client: u32,
    number: u32,
) -> Result<(), AllocError>
    ensures { OnOk result (removed.new.items ≡ removed.old.items ++ map
        (λ d. d.id) (filter (λ d. is_delivery client number d && d.queue == queue) out.now)) }
{
    for handed in out {
        if handed.is_delivery(client, number) && handed.is_from(queue) {
            removed.push(handed.id())?;
        }
    }
    Ok(())
}

/// Adds the ids that an event removes from the queue, with these deliveries open.
fn push_removed(
    removed: &mut Vec<u128>,
    queue: u32,
    out: &[Handed],
    event: &Event,
) -> Result<(), AllocError>
    ensures { OnOk result (removed.new.items ≡ removed.old.items ++ removes queue out.now event.now) }
{
    match event {
        Event::Acked { client, delivery } | Event::Dropped { client, delivery } => {
            push_named(removed, queue, out, *client, *delivery)
        }
        _ => Ok(()),
    }
}

/// The ids that were removed from the queue.
pub(crate) fn acked(alloc: Global, entries: &[Entry], queue: u32) -> Result<Vec<u128>, AllocError>
    ensures { IfOk result (λ ids. ids.items ≡ acked (reverse entries.now) queue) }
{
    let mut out = Vec::new(alloc);
    let mut removed = Vec::new(alloc);
    for entry in entries {
        push_removed(&mut removed, queue, &out, &entry.event)?;
        follow(&mut out, &entry.event)?;
    }
    Ok(removed)
}
