// Queues in memory, call by call.
use cq_bytes::Body;
use cq_entry::EntryKind;
use cq_items::{First, Holder, Items, Passed, Stand};
use std::alloc::{AllocError, Global};
use std::test::Fail;

/// Where an entry that is kept stands.
const HERE: Stand = Stand {
    segment: 3,
    at: 7,
    place: 0,
};

/// Adds so many large messages, with the ids from a number on.
fn add(core: &mut Items, from: u32, count: u32) -> Result<(), AllocError> {
    for step in 0..count {
        core.reserve()?;
        core.publish(u128::from(from) + u128::from(step), None, 5000);
    }
    Ok(())
}

/// The id that a client is handed, where something waits and the delivery isn't out.
fn get(core: &mut Items, client: u32, delivery: u32) -> Option<u128> {
    if core.waiting() == 0 || core.is_out(client, delivery) {
        return None;
    }
    let first = core.first_waiting()?;
    core.deliver(client, delivery);
    Some(first.id)
}

/// Passes the first undecided entry, where there is one.
fn pass(core: &mut Items) -> Option<Passed> {
    core.undecided(0)?;
    Some(core.pass(false, HERE))
}

/// Whether a client gets these, one after another, under deliveries from a number on.
fn gets(core: &mut Items, client: u32, from: u32, expected: &[u128]) -> bool {
    let mut delivery = from;
    for id in expected {
        if get(core, client, delivery) != Some(*id) {
            return false;
        }
        delivery = delivery.wrapping_add(1);
    }
    true
}

/// Whether these wait, in this order, and no others: a client gets them.
fn are_waiting(core: &mut Items, expected: &[u128]) -> bool {
    gets(core, 60, 1_000_000, expected) && core.waiting() == 0 && core.first_waiting().is_none()
}

/// How many messages wait once a client has ended.
fn after_end(core: &mut Items, client: u32) -> u64 {
    core.give_back(client);
    core.waiting()
}

/// Whether a settling gives these, and leaves none.
fn settles(core: &mut Items, expected: &[u128]) -> Result<bool, AllocError> {
    let given = match core.settle()? {
        Some(settling) => settling.ids.as_slice() == expected,
        None => expected.is_empty(),
    };
    Ok(given && core.settling() == 0)
}

/// How many messages a settling gives.
fn count_settled(core: &mut Items) -> Result<usize, AllocError> {
    match core.settle()? {
        Some(settling) => Ok(settling.ids.len()),
        None => Ok(0),
    }
}

/// Whether the first undecided entry is kept, at this place of this segment.
fn keeps_at(core: &mut Items, segment: u64, at: u32) -> bool {
    if core.undecided(0).is_none() {
        return false;
    }
    let stand = Stand {
        segment,
        at,
        place: 0,
    };
    core.pass(false, stand).kept
}

/// Whether a settling gives these messages of this segment, whose entries stand at these places.
fn settles_in(
    core: &mut Items,
    segment: u64,
    at: &[u32],
    ids: &[u128],
) -> Result<bool, AllocError> {
    match core.settle()? {
        Some(settling) => Ok(
            settling.segment == segment
                && settling.at.as_slice() == at
                && settling.ids.as_slice() == ids,
        ),
        None => Ok(false),
    }
}

#[test]
fn the_lowest_segment_settles_first(rt: HostRuntime) -> Result<(), Fail> {
    let mut core = Items::new(rt.alloc());
    add(&mut core, 1, 4)?;
    assert!(rt; keeps_at(&mut core, 4, 2) && keeps_at(&mut core, 4, 5));
    assert!(rt; keeps_at(&mut core, 5, 0) && keeps_at(&mut core, 5, 1));
    assert!(rt; gets(&mut core, 1, 0, &[1, 2, 3, 4]));
    core.acked(1, 3);
    core.acked(1, 1);
    core.acked(1, 2);
    core.acked(1, 0);
    assert!(rt; settles_in(&mut core, 4, &[2, 5], &[1, 2])?);
    assert!(rt; settles_in(&mut core, 5, &[0, 1], &[3, 4])?);
    assert!(rt; settles(&mut core, &[])?);
    Ok(())
}

#[test]
fn what_an_ended_client_had_goes_back_to_its_place(rt: HostRuntime) -> Result<(), Fail> {
    let mut core = Items::new(rt.alloc());
    add(&mut core, 1, 5)?;
    assert!(rt; gets(&mut core, 7, 0, &[1, 2, 3, 4]) && core.waiting() == 1);
    core.acked(7, 0);
    core.acked(7, 2);
    core.acked(8, 1);
    assert!(rt; core.is_out(7, 1) && !core.is_out(7, 2));
    assert!(rt; after_end(&mut core, 8) == 1 && after_end(&mut core, 7) == 3);
    assert!(rt; are_waiting(&mut core, &[2, 4, 5]));
    Ok(())
}

/// Adds the small message 9, whose body is "hi".
fn add_small(core: &mut Items, alloc: Global) -> Result<(), AllocError> {
    let body = Body::copy(alloc, b"hi")?;
    core.reserve()?;
    core.publish(9, Some(body), 2);
    Ok(())
}

/// A queue with a small message and then the large ones 10, 11 and 12.
fn mixed(alloc: Global) -> Result<Items, AllocError> {
    let mut core = Items::new(alloc);
    add_small(&mut core, alloc)?;
    add(&mut core, 10, 3)?;
    Ok(core)
}

/// How many bytes the body of the first message that waits has.
fn first_body(core: &Items) -> Option<usize> {
    let first = core.first_item()?;
    let body = first.body()?;
    Some(body.bytes().len())
}

#[test]
fn what_is_first_is_told(rt: HostRuntime) -> Result<(), Fail> {
    let core = mixed(rt.alloc())?;
    let small = First {
        id: 9,
        kind: EntryKind::Small,
        len: 2,
    };
    assert!(rt; core.first_waiting() == Some(small) && first_body(&core) == Some(2));
    assert!(rt; core.undecided(3) == Some(12) && core.undecided(4).is_none());
    Ok(())
}

/// Whether these are passed, one after another, and kept or not.
fn passes(core: &mut Items, expected: &[(u128, bool)]) -> bool {
    for (id, kept) in expected {
        if pass(core)
            != Some(Passed {
                id: *id,
                kept: *kept,
            })
        {
            return false;
        }
    }
    true
}

#[test]
fn entries_are_passed_and_settled(rt: HostRuntime) -> Result<(), Fail> {
    let mut core = mixed(rt.alloc())?;
    assert!(rt; gets(&mut core, 1, 0, &[9, 10, 11]));
    core.acked(1, 1);
    assert!(rt; passes(&mut core, &[(9, true), (10, false), (11, true)]));
    core.acked(1, 0);
    assert!(rt; core.settling() == 1);
    assert!(rt; settles(&mut core, &[9])?);
    assert!(rt; settles(&mut core, &[])?);
    core.give_back(1);
    assert!(rt; are_waiting(&mut core, &[11, 12]));
    Ok(())
}

/// A queue whose message 5 went to client 3 under delivery 8 and was skipped; who had it then, and what was passed.
fn skipped(alloc: Global) -> Result<(Items, Holder, Passed), AllocError> {
    let mut core = Items::new(alloc);
    core.reserve()?;
    core.publish(5, None, 5000);
    core.deliver(3, 8);
    let holder = core.holder(5);
    let passed = core.pass(true, HERE);
    Ok((core, holder, passed))
}

#[test]
fn one_that_is_out_may_be_skipped(rt: HostRuntime) -> Result<(), Fail> {
    let (mut core, holder, passed) = skipped(rt.alloc())?;
    let out = Holder::Out {
        client: 3,
        delivery: 8,
    };
    assert!(rt; holder == out && passed == Passed { id: 5, kept: false });
    assert!(rt; !core.is_out(3, 8));
    core.acked(3, 8);
    assert!(rt; after_end(&mut core, 3) == 0 && core.settling() == 0);
    Ok(())
}

/// Whether a client is handed the next message, which has the id above this delivery.
fn hands_next(core: &mut Items, delivery: u32) -> bool {
    get(core, delivery % 4, delivery) == Some(u128::from(delivery) + 1)
}

/// Whether every message is handed out, each to the next of four clients.
fn hands_out(core: &mut Items, count: u32) -> bool {
    for delivery in 0..count {
        if !hands_next(core, delivery) {
            return false;
        }
    }
    true
}

/// Acknowledges all of those deliveries but every eighth.
fn acknowledge(core: &mut Items, count: u32) {
    for delivery in 0..count {
        if delivery % 8 != 5 {
            core.acked(delivery % 4, delivery);
        }
    }
}

/// Whether so many entries are passed, and kept where that is asked.
fn passes_many(core: &mut Items, count: u32, all_kept: bool) -> bool {
    for _ in 0..count {
        match pass(core) {
            Some(passed) if passed.kept || !all_kept => {}
            _ => return false,
        }
    }
    true
}

/// Passes all 400 entries, the second half after the deliveries were acknowledged: whether the counts are right.
fn passes_all(core: &mut Items) -> Result<bool, AllocError> {
    let kept = passes_many(core, 200, true);
    acknowledge(core, 400);
    let settled = count_settled(core)?;
    Ok(kept && settled == 175 && passes_many(core, 200, false))
}

/// Whether the message 6 and every eighth after it wait, but for 14.
fn eighths_wait(core: &mut Items) -> bool {
    for step in 0..49u32 {
        let place = if step == 0 { 0 } else { step + 1 };
        if get(core, 9, 0) != Some(u128::from(place * 8 + 6)) {
            return false;
        }
        core.acked(9, 0);
    }
    true
}

#[test]
fn closing_up_keeps_what_stands(rt: HostRuntime) -> Result<(), Fail> {
    let mut core = Items::new(rt.alloc());
    add(&mut core, 1, 400)?;
    assert!(rt; hands_out(&mut core, 400) && passes_all(&mut core)?);
    assert!(rt; core.undecided(0).is_none());
    assert!(rt; core.is_out(1, 5) && core.is_out(1, 397) && !core.is_out(1, 1));
    core.acked(1, 13);
    core.give_back(1);
    assert!(rt; settles(&mut core, &[14])?);
    assert!(rt; core.waiting() == 49 && eighths_wait(&mut core));
    Ok(())
}
