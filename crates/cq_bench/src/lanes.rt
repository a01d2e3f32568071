// Lanes between a thread that puts and a thread that takes.
ghost use Rattle.std.specs.Prelude.{◌≡◌, ◌≤◌, ◌<◌, ◌+◌, ◌^◌, ◌∷◌, [], length, vec_len, All};
ghost use Rattle.cq_inbox.specs.Requests.{IsRequest};
ghost use Rattle.cq_lane.specs.Lanes.{lane_ids, seat_ids, own_id, sent_by, IsSenderOf};

use cq_inbox::{Inbox, Request, TableName};
use cq_lane::{LaneSeats, Lanes, Made, Sender, Taker, close};
use std::alloc::{AllocError, Global};
use std::marker::Brand;
use std::sync::Wait;
use std::thread::{Threads, join};

/// Puts a request, again and again until it is held.
fn put_until_held<R: Wait>(rt: &R, lanes: &Lanes, sender: &mut Sender, request: Request)
    requires lanes { IsSenderOf lanes.now sender.old }
    requires request { IsRequest request }
    requires few { length (sent_by sender.old) < 2 ^ 63 }
    ensures same { IsSenderOf lanes.now sender.new × (own_id sender.new ≡ own_id sender.old) }
    ensures few { length (sent_by sender.new) ≤ length (sent_by sender.old) + 1 }
{
    let mut next = request;
    for _ in rt.forever() {
        match sender.put(lanes, next) {
            Ok(_) => return,
            Err(full) => next = full.request,
        }
    }
    unreachable!()
}

/// One thread: puts so many requests.
fn put_all<R: Wait>(rt: &R, lanes: &Lanes, mut sender: Sender, count: u32) -> Sender
    requires lanes { IsSenderOf lanes.now sender }
    requires few { length (sent_by sender) + count < 2 ^ 63 }
    ensures { own_id result ≡ own_id sender }
{
    for delivery in 0..count {
        put_until_held(rt, lanes, &mut sender, Request::Ack { delivery });
    }
    sender
}

/// The other thread: takes so many requests, and counts those that come in order.
fn take_all<N: TableName, R: Wait>(
    rt: &R,
    lanes: &Lanes,
    seats: LaneSeats,
    count: u32,
) -> (LaneSeats, u32)
    requires lanes { (lane_ids lanes.now ≡ N.tables) × (seat_ids seats ≡ N.tables) × (length (seat_ids seats) ≡ 1) }
    ensures { seat_ids result.0 ≡ N.tables }
{
    let mut taker = Taker::<N>::new(lanes, seats);
    let mut taken = 0;
    let mut in_order = 0;
    for _ in rt.forever() {
        if taken == count {
            return (taker.into_seats(), in_order);
        }
        let next = taker.next(0);
        if next.is_some() {
            if matches!(next, Some(Request::Ack { delivery }) if delivery == taken) {
                in_order += 1;
            }
            taken += 1;
        }
    }
    unreachable!()
}

/// Two threads over one lane, and then nothing is left.
fn beside<N: TableName + Send + Sync, R: Threads + Wait + Sync>(
    rt: &R,
    alloc: Global,
    lanes: Lanes,
    sender: Sender,
    seats: LaneSeats,
    count: u32,
) -> Result<u32, AllocError>
    requires lanes { (lane_ids lanes ≡ N.tables) × (seat_ids seats ≡ N.tables) × (own_id sender ∷ [] ≡ N.tables)
        × IsSenderOf lanes sender }
    requires fresh { length (sent_by sender) ≡ 0 }
{
    let mut senders = Vec::with_capacity(alloc, 1)?;
    let lent = &lanes;
    let (sender, (seats, in_order)) = join(
        rt,
        move || -> Sender
            requires { IsSenderOf lent.now sender × (length (sent_by sender) ≡ 0) × (count < 2 ^ 32) }
            ensures { own_id result ≡ own_id sender }
        { put_all(rt, lent, sender, count) },
        move || -> (LaneSeats, u32)
            requires { (lane_ids lent.now ≡ N.tables) × (seat_ids seats ≡ N.tables) × (length (seat_ids seats) ≡ 1) }
            ensures { seat_ids result.0 ≡ N.tables }
        { take_all::<N, R>(rt, lent, seats, count) },
    );
    senders.push_reserved(sender);
    match close(alloc, lanes, senders, seats) {
        Ok(_) => Ok(in_order),
        Err(_) => Err(AllocError),
    }
}

/// Passes so many requests through one lane between two threads, and counts those that come in order.
pub fn one_lane<R: Threads + Wait + Sync>(
    rt: &R,
    alloc: Global,
    count: u32,
) -> Result<u32, AllocError> {
    let made = Lanes::new(alloc, 1)?;
    let Made {
        lanes,
        mut senders,
        taker,
    } = made;
    let Some(sender) = senders.pop() else {
        unreachable!()
    };
    beside::<Brand, R>(rt, alloc, lanes, sender, taker, count)
}

/// How many lanes there are where there are many.
const LANES: u32 = 64;

/// Puts a request into one of the lanes.
fn put_at<R: Wait>(
    rt: &R,
    lanes: &Lanes,
    senders: &mut Vec<Sender>,
    client: usize,
    puts: u32,
    request: Request,
)
    requires client { client < vec_len senders.old }
    requires senders { All (IsSenderOf lanes.now) senders.old.items }
    requires request { IsRequest request }
    requires few { All (λ s. length (sent_by s) ≤ puts) senders.old.items }
    ensures count { vec_len senders.new ≡ vec_len senders.old }
    ensures senders { All (IsSenderOf lanes.now) senders.new.items }
    ensures few { All (λ s. length (sent_by s) ≤ puts + 1) senders.new.items }
{
    put_until_held(rt, lanes, &mut senders[client], request);
}

/// One thread: puts so many requests, one into each lane in turn.
fn put_in_turn<R: Wait>(rt: &R, lanes: &Lanes, mut senders: Vec<Sender>, count: u32)
    requires lanes { vec_len senders ≡ 64 }
    requires senders { All (IsSenderOf lanes.now) senders.items }
    requires few { All (λ s. length (sent_by s) ≤ 0) senders.items }
{
    for delivery in 0..count {
        let client = (delivery % LANES) as usize;
        put_at(
            rt,
            lanes,
            &mut senders,
            client,
            delivery,
            Request::Ack { delivery },
        );
    }
}

/// Takes the client's next request, once there is one.
fn take_one<N: TableName, R: Wait>(rt: &R, taker: &mut Taker<'_, N>, client: u32) -> Request
    requires { client < length (seat_ids taker.old.seats) }
    ensures { length (seat_ids taker.new.seats) ≡ length (seat_ids taker.old.seats) }
{
    for _ in rt.forever() {
        if let Some(request) = taker.next(client) {
            return request;
        }
    }
    unreachable!()
}

/// The other thread: takes so many requests, one of each lane in turn, and counts those that come in order.
fn take_in_turn<N: TableName, R: Wait>(rt: &R, lanes: &Lanes, seats: LaneSeats, count: u32) -> u32
    requires { (lane_ids lanes.now ≡ N.tables) × (seat_ids seats ≡ N.tables) × (length (seat_ids seats) ≡ 64) }
{
    let mut taker = Taker::<N>::new(lanes, seats);
    let mut in_order = 0;
    for expected in 0..count {
        let next = take_one(rt, &mut taker, expected % LANES);
        if matches!(next, Request::Ack { delivery } if delivery == expected) {
            in_order += 1;
        }
    }
    in_order
}

/// Two threads over all lanes.
fn beside_many<N: TableName + Send + Sync, R: Threads + Wait + Sync>(
    rt: &R,
    lanes: &Lanes,
    senders: Vec<Sender>,
    seats: LaneSeats,
    count: u32,
) -> u32
    requires lanes { (lane_ids lanes.now ≡ N.tables) × (seat_ids seats ≡ N.tables) × (length (seat_ids seats) ≡ 64) }
    requires count { vec_len senders ≡ 64 }
    requires senders { All (IsSenderOf lanes.now) senders.items }
    requires few { All (λ s. length (sent_by s) ≤ 0) senders.items }
{
    let ((), in_order) = join(
        rt,
        move ||
            requires { (vec_len senders ≡ 64) × All (IsSenderOf lanes.now) senders.items
                × All (λ s. length (sent_by s) ≤ 0) senders.items }
        { put_in_turn(rt, lanes, senders, count) },
        move ||
            requires { (lane_ids lanes.now ≡ N.tables) × (seat_ids seats ≡ N.tables) × (length (seat_ids seats) ≡ 64) }
        { take_in_turn::<N, R>(rt, lanes, seats, count) },
    );
    in_order
}

/// Passes so many requests through 64 lanes between two threads, and counts those that come in order.
pub fn many_lanes<R: Threads + Wait + Sync>(
    rt: &R,
    alloc: Global,
    count: u32,
) -> Result<u32, AllocError> {
    let made = Lanes::new(alloc, LANES)?;
    let Made {
        lanes,
        senders,
        taker,
    } = made;
    Ok(beside_many::<Brand, R>(rt, &lanes, senders, taker, count))
}
