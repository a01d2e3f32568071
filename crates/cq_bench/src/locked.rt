// A queue behind a lock, at most 64 requests in it.
use cq_inbox::Request;
use std::alloc::{AllocError, Global};
use std::collections::VecDeque;
use std::sync::{Mutex, Wait};
use std::thread::{Threads, join};

/// How many requests the queue may hold, as many as a lane.
const MOST: usize = 64;

/// Puts so many requests.
fn put_all<R: Wait>(
    rt: &R,
    queue: &Mutex<VecDeque<Request>>,
    count: u32,
) -> Result<(), AllocError> {
    for delivery in 0..count {
        for _ in rt.forever() {
            let mut held = queue.lock(rt);
            if held.len() < MOST {
                held.push_back(Request::Ack { delivery })?;
                break;
            }
        }
    }
    Ok(())
}

/// Takes the next request, once there is one.
fn take_one<R: Wait>(rt: &R, queue: &Mutex<VecDeque<Request>>) -> Request {
    for _ in rt.forever() {
        let next = queue.lock(rt).pop_front();
        if let Some(request) = next {
            return request;
        }
    }
    unreachable!()
}

/// Takes so many requests, and counts those that come in order.
fn take_all<R: Wait>(rt: &R, queue: &Mutex<VecDeque<Request>>, count: u32) -> u32 {
    let mut in_order = 0;
    for expected in 0..count {
        let next = take_one(rt, queue);
        if matches!(next, Request::Ack { delivery } if delivery == expected) {
            in_order += 1;
        }
    }
    in_order
}

/// Passes so many requests between two threads, and counts those that come in order.
pub fn locked<R: Threads + Wait + Sync>(
    rt: &R,
    alloc: Global,
    count: u32,
) -> Result<u32, AllocError> {
    let queue = Mutex::new(VecDeque::new(alloc));
    let shared = &queue;
    let (put, in_order) = join(
        rt,
        move || put_all(rt, shared, count),
        move || take_all(rt, shared, count),
    );
    put?;
    Ok(in_order)
}
