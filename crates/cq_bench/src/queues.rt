// What each call of a queue in memory costs where many messages stand in the queue and many are out.

use cq_items::{Items, Stand};
use std::alloc::{AllocError, Global};
use std::io;
use std::rt::Clock;
use std::time::Instant;

/// Where every message is said to stand.
const STAND: Stand = Stand {
    segment: 0,
    at: 0,
    place: 128,
};

/// How many clients get messages in turn.
const CLIENTS: u32 = 64;

/// Adds so many messages.
fn publish_all(core: &mut Items, count: u32) -> Result<(), AllocError> {
    for step in 0..count {
        core.reserve()?;
        core.publish(u128::from(step) + 1, None, 5000);
    }
    Ok(())
}

/// Hands a message to a client, where one waits.
fn get(core: &mut Items, delivery: u32) {
    let client = delivery % CLIENTS;
    if core.waiting() > 0 && !core.is_out(client, delivery) {
        core.deliver(client, delivery);
    }
}

/// Hands out so many messages, from a delivery on.
fn get_all(core: &mut Items, from: u32, count: u32) {
    for step in 0..count {
        get(core, from.wrapping_add(step));
    }
}

/// Looks at what is handed out next so many times, and adds its ids up.
fn look(core: &Items, count: u32) -> u128 {
    let mut sum: u128 = 0;
    for _ in 0..count {
        if let Some(first) = core.first_waiting() {
            sum = sum.wrapping_add(first.id);
        }
    }
    sum
}

/// Hands out so many messages, each acknowledged before the next.
fn get_and_ack(core: &mut Items, from: u32, count: u32) {
    for step in 0..count {
        let delivery = from.wrapping_add(step);
        get(core, delivery);
        core.acked(delivery % CLIENTS, delivery);
    }
}

/// Gives back what is out to each client.
fn give_back_all(core: &mut Items) {
    for client in 0..CLIENTS {
        core.give_back(client);
    }
}

/// Passes so many undecided entries, and counts those that were kept.
fn pass_all(core: &mut Items, count: u32) -> u32 {
    let mut kept: u32 = 0;
    for _ in 0..count {
        if core.undecided(0).is_some() && core.pass(false, STAND).kept {
            kept = kept.wrapping_add(1);
        }
    }
    kept
}

/// Nanoseconds for each of so many calls.
fn each(nanoseconds: u128, calls: u32) -> u128 {
    nanoseconds / u128::from(calls.max(1))
}

/// What each call cost, in nanoseconds.
#[derive(Clone, Copy)]
struct Costs {
    publish: u128,
    first: u128,
    deliver_and_ack: u128,
    give_back: u128,
    deliver: u128,
    pass: u128,
    settle: u128,
}

/// The cost of publishing so many messages.
fn publish_cost(rt: &impl Clock, core: &mut Items, count: u32) -> io::Result<u128> {
    let start = Instant::now(rt)?;
    publish_all(core, count)?;
    Ok(each(start.elapsed(rt)?.as_nanos(), count))
}

/// The cost of looking at what is handed out next.
fn first_cost(rt: &impl Clock, core: &Items, count: u32) -> io::Result<u128> {
    let start = Instant::now(rt)?;
    let sum = look(core, count);
    let cost = each(start.elapsed(rt)?.as_nanos(), count);
    Ok(if sum == 0 { 0 } else { cost })
}

/// The cost of handing a message out and acknowledging it.
fn ack_cost(rt: &impl Clock, core: &mut Items, from: u32, count: u32) -> io::Result<u128> {
    let start = Instant::now(rt)?;
    get_and_ack(core, from, count);
    Ok(each(start.elapsed(rt)?.as_nanos(), count))
}

/// The cost of giving back one of so many deliveries that are out.
fn back_cost(rt: &impl Clock, core: &mut Items, out: u32) -> io::Result<u128> {
    let start = Instant::now(rt)?;
    give_back_all(core);
    Ok(each(start.elapsed(rt)?.as_nanos(), out))
}

/// The cost of handing out one of so many messages.
fn deliver_cost(rt: &impl Clock, core: &mut Items, out: u32) -> io::Result<u128> {
    let start = Instant::now(rt)?;
    get_all(core, 0, out);
    Ok(each(start.elapsed(rt)?.as_nanos(), out))
}

/// The cost of passing an undecided entry.
fn pass_cost(rt: &impl Clock, core: &mut Items, count: u32) -> io::Result<u128> {
    let start = Instant::now(rt)?;
    let kept = pass_all(core, count);
    let cost = each(start.elapsed(rt)?.as_nanos(), count);
    Ok(if kept == 0 { 0 } else { cost })
}

/// The cost of settling a message.
fn settle_cost(rt: &impl Clock, core: &mut Items) -> io::Result<u128> {
    let start = Instant::now(rt)?;
    let settled = match core.settle()? {
        Some(settling) => settling.ids.len(),
        None => 0,
    };
    let cost = start.elapsed(rt)?.as_nanos();
    Ok(cost / (settled.max(1) as u128))
}

/// Makes all calls on a queue of so many messages, of which so many are out.
fn measure(rt: &impl Clock, core: &mut Items, count: u32, out: u32) -> io::Result<Costs> {
    let some = count / 4;
    let publish = publish_cost(rt, core, count)?;
    get_all(core, 0, out);
    let first = first_cost(rt, core, some)?;
    let deliver_and_ack = ack_cost(rt, core, out, some)?;
    let give_back = back_cost(rt, core, out)?;
    let deliver = deliver_cost(rt, core, out)?;
    let pass = pass_cost(rt, core, count)?;
    get_and_ack(core, out, some);
    let settle = settle_cost(rt, core)?;
    Ok(Costs {
        publish,
        first,
        deliver_and_ack,
        give_back,
        deliver,
        pass,
        settle,
    })
}

/// Prints what each call cost.
fn report(rt: &impl Print, count: u32, out: u32, costs: Costs) -> io::Result<()> {
    let Costs {
        publish,
        first,
        deliver_and_ack,
        give_back,
        deliver,
        pass,
        settle,
    } = costs;
    println!(rt;
        "{count} messages, {out} out: publish {publish} first {first} deliver and ack {deliver_and_ack}"
    )?;
    println!(rt; "    give back {give_back} deliver {deliver} pass {pass} settle {settle}")
}

/// Takes the times of a queue of so many messages, of which so many are out.
fn time(rt: &(impl Clock + Print), alloc: Global, count: u32, out: u32) -> io::Result<()> {
    let mut core = Items::new(alloc);
    let costs = measure(rt, &mut core, count, out)?;
    report(rt, count, out, costs)
}

/// Takes the times of queues of several sizes.
fn time_all(rt: &(impl Clock + Print), alloc: Global) -> io::Result<()> {
    for count in [10_000, 100_000, 1_000_000] {
        time(rt, alloc, count, 1)?;
        time(rt, alloc, count, 4096)?;
    }
    Ok(())
}

/// Makes the calls on a small queue.
fn try_out(rt: &(impl Clock + Print), alloc: Global) -> io::Result<()> {
    let mut core = Items::new(alloc);
    measure(rt, &mut core, 400, 64)?;
    println!(rt; "400 messages, {} waiting", core.waiting())
}

/// Makes the calls on a small queue, or takes the times of large ones.
pub(crate) fn show<R: AllocGlobal + Clock + Print>(rt: &R, timed: bool) -> io::Result<()> {
    if timed {
        return time_all(rt, rt.alloc());
    }
    try_out(rt, rt.alloc())
}
