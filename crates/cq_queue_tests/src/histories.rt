// Each row of the table allowed once and refused once, and what waits, with ample memory.
use cq_bytes::{Body, Queues};
use cq_journal::{Event, Lines};
use cq_plain::Plain;
use std::alloc::{AllocError, Global};
use std::test::Fail;

/// Applies an opening with a message of this id in each of these queues.
fn open(plain: &mut Plain, alloc: Global, id: u128, queues: &[u32]) -> Result<bool, AllocError> {
    let mut lines = Lines::new(alloc);
    for queue in queues {
        lines.push(*queue, id, Body::copy(alloc, b"old")?)?;
    }
    plain.apply(&Event::Opened { lines })
}

/// Applies a publish of client 0 to a queue, and to none where its number is too high.
fn publish(
    plain: &mut Plain,
    alloc: Global,
    number: u64,
    id: u128,
    queue: u32,
) -> Result<bool, AllocError> {
    let mut queues = Queues::new(alloc);
    let _ = queues.push(queue);
    let body = Body::copy(alloc, b"new")?;
    plain.apply(&Event::Published {
        client: 0,
        number,
        id,
        queues,
        body,
    })
}

/// Whether publishes of client 0, each with its number, the id and the queue, are answered as wanted.
fn answers_publishes(
    plain: &mut Plain,
    alloc: Global,
    rows: &[(u64, u128, u32, bool)],
) -> Result<bool, AllocError> {
    for (number, id, queue, wanted) in rows {
        if publish(plain, alloc, *number, *id, *queue)? != *wanted {
            return Ok(false);
        }
    }
    Ok(true)
}

/// Whether these wait in a queue, in this order, and no others.
fn wait(plain: &Plain, queue: u32, expected: &[u128]) -> Result<bool, AllocError> {
    Ok(plain.waiting(queue)?.as_slice() == expected)
}

/// Whether openings with a message twice in a queue and with the id 0 are refused.
fn refuses_openings(plain: &mut Plain, alloc: Global) -> Result<bool, AllocError> {
    let twice = open(plain, alloc, 9, &[0, 0])?;
    let zero = open(plain, alloc, 0, &[0])?;
    Ok(!twice && !zero)
}

#[test]
fn openings(rt: HostRuntime) -> Result<(), Fail> {
    let alloc = rt.alloc();
    let plain = &mut Plain::new(alloc);
    assert!(rt; !plain.apply(&Event::Ended { client: 0 })?, "not the first");
    assert!(rt; refuses_openings(plain, alloc)?);
    assert!(rt; open(plain, alloc, 9, &[0, 1])?);
    assert!(rt; !open(plain, alloc, 8, &[0])?, "not the second");
    assert!(rt; wait(plain, 1, &[9])?);
    Ok(())
}

/// Publishes with another number, a known id, the id 0, no queue, one that is allowed, and its id a second time.
const PUBLISHES: [(u64, u128, u32, bool); 6] = [
    (1, 7, 0, false),
    (0, 9, 0, false),
    (0, 0, 0, false),
    (0, 7, 256, false),
    (0, 7, 0, true),
    (1, 7, 0, false),
];

#[test]
fn publishes(rt: HostRuntime) -> Result<(), Fail> {
    let alloc = rt.alloc();
    let plain = &mut Plain::new(alloc);
    assert!(rt; open(plain, alloc, 9, &[0])?);
    assert!(rt; answers_publishes(plain, alloc, &PUBLISHES)?);
    assert!(rt; wait(plain, 0, &[9, 7])?);
    Ok(())
}

/// An event of a client, in short.
#[derive(Clone, Copy)]
enum Step {
    /// The client, and the queue where its get found nothing.
    Empty(u32, u32),
    /// The client, and the queue of its get.
    Busy(u32, u32),
    /// The client that published, and the id, of its publish 0.
    Confirmed(u32, u128),
    /// The client, the delivery and the id, from queue 0.
    Delivered(u32, u32, u128),
    /// The client and the delivery.
    Unknown(u32, u32),
    /// The client and the delivery.
    Dropped(u32, u32),
    /// The client and the delivery.
    Acked(u32, u32),
    /// The queue and the id.
    Settled(u32, u128),
    /// The client.
    Ended(u32),
}

/// The event that a step stands for.
fn event_of(step: Step) -> Event {
    match step {
        Step::Empty(client, queue) => Event::Empty { client, queue },
        Step::Busy(client, queue) => Event::Busy { client, queue },
        Step::Confirmed(client, id) => Event::Confirmed {
            client,
            number: 0,
            id,
        },
        Step::Delivered(client, delivery, id) => Event::Delivered {
            client,
            delivery,
            queue: 0,
            id,
        },
        Step::Unknown(client, delivery) => Event::Unknown { client, delivery },
        Step::Dropped(client, delivery) => Event::Dropped { client, delivery },
        Step::Acked(client, delivery) => Event::Acked { client, delivery },
        Step::Settled(queue, id) => Event::Settled { queue, id },
        Step::Ended(client) => Event::Ended { client },
    }
}

/// Applies the steps in order, and says whether each was answered as wanted.
fn answers(plain: &mut Plain, steps: &[(Step, bool)]) -> Result<bool, AllocError> {
    for (step, wanted) in steps {
        if plain.apply(&event_of(*step))? != *wanted {
            return Ok(false);
        }
    }
    Ok(true)
}

/// Gets, confirmations and deliveries of the message 7 of client 0, which waits in queue 0, to client 3.
const GETS: [(Step, bool); 9] = [
    (Step::Empty(3, 0), false),
    (Step::Empty(3, 2), true),
    (Step::Busy(3, 0), false),
    (Step::Confirmed(3, 7), false),
    (Step::Confirmed(0, 7), true),
    (Step::Confirmed(0, 7), false),
    (Step::Delivered(3, 1, 7), false),
    (Step::Delivered(3, 0, 9), false),
    (Step::Delivered(3, 0, 7), true),
];

#[test]
fn gets_and_confirms(rt: HostRuntime) -> Result<(), Fail> {
    let alloc = rt.alloc();
    let plain = &mut Plain::new(alloc);
    assert!(rt; open(plain, alloc, 9, &[1])?);
    assert!(rt; publish(plain, alloc, 0, 7, 0)?);
    assert!(rt; answers(plain, &GETS)?);
    Ok(())
}

/// What may happen to the message 9 of queue 0, which goes to client 3, until it is settled.
const ACKNOWLEDGEMENTS: [(Step, bool); 12] = [
    (Step::Delivered(3, 0, 9), true),
    (Step::Unknown(3, 0), false),
    (Step::Unknown(0, 0), true),
    (Step::Settled(0, 9), false),
    (Step::Dropped(0, 0), false),
    (Step::Dropped(3, 0), true),
    (Step::Dropped(3, 0), false),
    (Step::Acked(0, 0), false),
    (Step::Acked(3, 0), true),
    (Step::Settled(0, 9), true),
    (Step::Settled(0, 9), false),
    (Step::Ended(3), true),
];

#[test]
fn acknowledgements_and_settlings(rt: HostRuntime) -> Result<(), Fail> {
    let alloc = rt.alloc();
    let plain = &mut Plain::new(alloc);
    assert!(rt; open(plain, alloc, 9, &[0])?);
    assert!(rt; answers(plain, &ACKNOWLEDGEMENTS)?);
    Ok(())
}

/// Whether a publish is allowed, and then client 1, with so many open, is busy at 64 and is handed the message below.
fn goes_on(plain: &mut Plain, alloc: Global, count: u32) -> Result<bool, AllocError> {
    let id = u128::from(count) + 1;
    let is_published = publish(plain, alloc, u64::from(count), id, 0)?;
    let is_full = count == 64;
    let steps = [
        (Step::Busy(1, 0), is_full),
        (Step::Delivered(1, count, id), !is_full),
    ];
    Ok(is_published && answers(plain, &steps)?)
}

/// A get of client 1 with 64 open, a delivery to another client, and the end of client 1.
const LAST: [(Step, bool); 3] = [
    (Step::Empty(1, 1), false),
    (Step::Delivered(2, 0, 65), true),
    (Step::Ended(1), true),
];

#[test]
fn a_client_with_64_open_is_busy(rt: HostRuntime) -> Result<(), Fail> {
    let alloc = rt.alloc();
    let plain = &mut Plain::new(alloc);
    assert!(rt; open(plain, alloc, 0, &[])?);
    for count in 0..65 {
        assert!(rt; goes_on(plain, alloc, count)?, "with {count} open");
    }
    assert!(rt; answers(plain, &LAST)?);
    assert!(rt; plain.waiting(0)?.len() == 64);
    Ok(())
}

/// Five messages of queue 0.
const FIVE: [(u64, u128, u32, bool); 5] = [
    (0, 10, 0, true),
    (1, 11, 0, true),
    (2, 12, 0, true),
    (3, 13, 0, true),
    (4, 14, 0, true),
];

/// Four of them go to client 5, which acknowledges two and ends.
const TWO_ACKNOWLEDGED: [(Step, bool); 7] = [
    (Step::Delivered(5, 0, 10), true),
    (Step::Delivered(5, 1, 11), true),
    (Step::Delivered(5, 2, 12), true),
    (Step::Delivered(5, 3, 13), true),
    (Step::Acked(5, 0), true),
    (Step::Acked(5, 2), true),
    (Step::Ended(5), true),
];

#[test]
fn what_was_not_acknowledged_waits_again(rt: HostRuntime) -> Result<(), Fail> {
    let alloc = rt.alloc();
    let plain = &mut Plain::new(alloc);
    assert!(rt; open(plain, alloc, 0, &[])?);
    assert!(rt; answers_publishes(plain, alloc, &FIVE)?);
    assert!(rt; answers(plain, &TWO_ACKNOWLEDGED)?);
    assert!(rt; wait(plain, 0, &[11, 13, 14])?);
    Ok(())
}
