// Two clients, and messages without bytes in the queues 3, 7 and 255.
ghost use Rattle.std.specs.Prelude.{◌≡◌, ◌<◌, ◌≤◌, length, IfOk};
ghost use Rattle.cq_journal.specs.Legal.{newest};
ghost use Rattle.cq_broker.specs.Broker.{entries_of, history_of};

use crate::{Broker, Next};
use cq_bytes::{Body, Queues};
use cq_journal::Event;
use std::alloc::{AllocError, Global};
use std::test::Fail;

/// A broker of two clients.
fn two_clients(alloc: Global) -> Result<Broker, AllocError>
    ensures clients { IfOk result (λ broker. length (history_of broker).clients ≡ 2) }
    ensures later { IfOk result (λ broker. newest (entries_of broker) ≤ 3) }
{
    Broker::vacant(alloc, 2, 16, 1)
}

/// These queues.
fn queues_of(alloc: Global, numbers: &[u32]) -> Queues {
    let mut queues = Queues::new(alloc);
    for number in numbers {
        let _ = queues.push(*number);
    }
    queues
}

/// Whether a message of client 0 is published to these queues.
fn publish(broker: &mut Broker, alloc: Global, numbers: &[u32]) -> Result<bool, AllocError>
    requires clients { length (history_of broker.old).clients ≡ 2 }
    requires later { newest (entries_of broker.old) ≤ 3 }
    ensures clients { length (history_of broker.new).clients ≡ 2 }
    ensures later { newest (entries_of broker.new) ≤ 3 }
{
    let queues = queues_of(alloc, numbers);
    let body = Body::copy(alloc, b"")?;
    broker.reserve(0)?;
    if queues.numbers().is_empty() {
        return Ok(false);
    }
    Ok(broker.publish(0, 3, queues, body).is_ok())
}

/// Answers a get by what it finds, where that is a message without bytes, and tells it.
fn get(broker: &mut Broker, alloc: Global, client: u32, queue: u32) -> Result<Next, AllocError>
    requires client { client < 2 }
    requires queue { queue < 256 }
    requires clients { length (history_of broker.old).clients ≡ 2 }
    requires later { newest (entries_of broker.old) ≤ 3 }
    ensures clients { length (history_of broker.new).clients ≡ 2 }
    ensures later { newest (entries_of broker.new) ≤ 3 }
{
    let body = Body::copy(alloc, b"")?;
    broker.reserve(client)?;
    let few = broker.delivered(client) < 100;
    let next = broker.next(client, queue);
    match next {
        Next::Busy => broker.busy(client, queue, 3),
        Next::Empty => broker.empty(client, queue, 3),
        Next::Waiting(first) => {
            if few && first.len == 0 {
                broker.deliver(client, queue, 3, first.id, body);
            }
        }
    }
    Ok(next)
}

/// Whether the newest entry is an acknowledgement of an open delivery.
fn is_acked(broker: &Broker) -> bool {
    match broker.journal().entries().last() {
        Some(entry) => matches!(&entry.event, Event::Acked { .. }),
        None => false,
    }
}

/// Whether a client's acknowledgement is one of an open delivery.
fn ack(broker: &mut Broker, client: u32, delivery: u32) -> Result<bool, AllocError>
    requires client { client < 2 }
    requires clients { length (history_of broker.old).clients ≡ 2 }
    requires later { newest (entries_of broker.old) ≤ 3 }
    ensures clients { length (history_of broker.new).clients ≡ 2 }
    ensures later { newest (entries_of broker.new) ≤ 3 }
{
    broker.reserve(client)?;
    broker.ack(client, delivery, 3);
    Ok(is_acked(broker))
}

/// Ends a client.
fn end(broker: &mut Broker, client: u32) -> Result<(), AllocError>
    requires client { client < 2 }
    requires clients { length (history_of broker.old).clients ≡ 2 }
    requires later { newest (entries_of broker.old) ≤ 3 }
    ensures clients { length (history_of broker.new).clients ≡ 2 }
    ensures later { newest (entries_of broker.new) ≤ 3 }
{
    broker.reserve(client)?;
    broker.end(client, 3);
    Ok(())
}

/// The id of what was found, and 0 where nothing waits.
fn id_of(next: Next) -> u128 {
    match next {
        Next::Waiting(first) => first.id,
        _ => 0,
    }
}

#[test]
fn a_message_waits_in_each_of_its_queues(rt: HostRuntime) -> Result<(), Fail> {
    let alloc = rt.alloc();
    let mut broker = two_clients(alloc)?;
    let sent = publish(&mut broker, alloc, &[3, 7, 255])?;
    let first = get(&mut broker, alloc, 1, 7)?;
    let second = get(&mut broker, alloc, 1, 7)?;
    let third = get(&mut broker, alloc, 0, 255)?;
    assert!(rt; sent && id_of(first) == 1 && second == Next::Empty && id_of(third) == 1);
    assert!(rt; broker.delivered(0) == 1 && broker.delivered(1) == 1);
    assert!(rt; id_of(broker.next(0, 3)) == 1 && broker.next(0, 4) == Next::Empty);
    Ok(())
}

#[test]
fn a_client_acknowledges_its_own_deliveries(rt: HostRuntime) -> Result<(), Fail> {
    let alloc = rt.alloc();
    let mut broker = two_clients(alloc)?;
    let sent = publish(&mut broker, alloc, &[3])?;
    let got = get(&mut broker, alloc, 1, 3)?;
    let others = ack(&mut broker, 0, 0)?;
    let own = ack(&mut broker, 1, 0)?;
    let again = ack(&mut broker, 1, 0)?;
    assert!(rt; sent && id_of(got) == 1);
    assert!(rt; !others && own && !again);
    end(&mut broker, 1)?;
    assert!(rt; broker.next(0, 3) == Next::Empty);
    Ok(())
}

#[test]
fn an_end_gives_back_in_old_places(rt: HostRuntime) -> Result<(), Fail> {
    let alloc = rt.alloc();
    let mut broker = two_clients(alloc)?;
    let sent = publish(&mut broker, alloc, &[3, 7])? && publish(&mut broker, alloc, &[3])?;
    let first = get(&mut broker, alloc, 0, 3)?;
    let second = get(&mut broker, alloc, 1, 3)?;
    let elsewhere = get(&mut broker, alloc, 0, 7)?;
    assert!(rt; sent && id_of(first) == 1 && id_of(second) == 2 && id_of(elsewhere) == 1);
    end(&mut broker, 1)?;
    assert!(rt; id_of(broker.next(1, 3)) == 2);
    end(&mut broker, 0)?;
    assert!(rt; id_of(broker.next(1, 3)) == 1 && id_of(broker.next(1, 7)) == 1);
    Ok(())
}

/// Publishes 64 messages to queue 255, and gets them for client 0; whether each was there.
fn fill(broker: &mut Broker, alloc: Global) -> Result<bool, AllocError>
    requires clients { length (history_of broker.old).clients ≡ 2 }
    requires later { newest (entries_of broker.old) ≤ 3 }
    ensures clients { length (history_of broker.new).clients ≡ 2 }
    ensures later { newest (entries_of broker.new) ≤ 3 }
{
    let mut all = true;
    for _turn in 0..64 {
        let sent = publish(broker, alloc, &[255])?;
        let next = get(broker, alloc, 0, 255)?;
        all = all && sent && id_of(next) > 0;
    }
    Ok(all)
}

#[test]
fn a_client_with_64_open_is_busy(rt: HostRuntime) -> Result<(), Fail> {
    let alloc = rt.alloc();
    let mut broker = two_clients(alloc)?;
    let full = fill(&mut broker, alloc)?;
    let next = get(&mut broker, alloc, 0, 255)?;
    let other = get(&mut broker, alloc, 1, 255)?;
    assert!(rt; full && next == Next::Busy && other == Next::Empty);
    Ok(())
}
