// What is left in the lanes at the end.
ghost use Rattle.std.specs.Prelude.{◌≡◌, IfOk, MatchResult, vec_len};
ghost use Rattle.cq_lane.specs.Lanes.{lane_ids, sender_ids, seat_ids, AreRooms, Drained, Leaves};

use super::{LaneSeats, Lanes, Sender};
use cq_inbox::Request;
use std::alloc::{AllocError, Global};

/// How many requests a lane holds at most.
const MOST_LEFT: usize = 64;

/// There was no memory for the lists of what is left. All comes back.
#[derive(Drop)]
pub struct CloseRefused {
    pub lanes: Lanes,
    pub senders: Vec<Sender>,
    pub seats: LaneSeats,
}

/// As many empty lists, each with room for what is left of one client: the memory that `close_into` needs.
pub fn rooms(alloc: Global, count: usize) -> Result<Vec<Vec<Request>>, AllocError>
    ensures { IfOk result (AreRooms count) }
{
    let mut all = Vec::with_capacity(alloc, count)?;
    for _ in 0..count {
        let room = Vec::with_capacity(alloc, MOST_LEFT)?;
        all.push(room)?;
    }
    Ok(all)
}

/// Moves what is left of each client into its list.
fn drain(lanes: Lanes, mut senders: Vec<Sender>, seats: LaneSeats, rooms: &mut Vec<Vec<Request>>)
    requires ends { (sender_ids senders.items ≡ lane_ids lanes) × (seat_ids seats ≡ lane_ids lanes) }
    requires rooms { AreRooms (vec_len senders) rooms.old }
    ensures { Drained senders.items seats rooms.new.items }
{
    let Lanes { mut lanes } = lanes;
    let LaneSeats { mut ends } = seats;
    while let Some(lane) = lanes.pop() {
        let Some(sender) = senders.pop() else {
            unreachable!()
        };
        let Some(take_end) = ends.pop() else {
            unreachable!()
        };
        let Sender { client: _, end } = sender;
        let room = &mut rooms[lanes.len()];
        lane.drain(end, take_end, room);
    }
}

/// What is left of each client, in order: what its sender has put, without what was taken. It goes into `rooms`, one for
/// each client, and takes no memory.
pub fn close_into(
    lanes: Lanes,
    senders: Vec<Sender>,
    seats: LaneSeats,
    mut rooms: Vec<Vec<Request>>,
) -> Vec<Vec<Request>>
    requires senders { sender_ids senders.items ≡ lane_ids lanes }
    requires seats { seat_ids seats ≡ lane_ids lanes }
    requires rooms { AreRooms (vec_len senders) rooms }
    ensures { Leaves senders.items seats result.items }
{
    drain(lanes, senders, seats, &mut rooms);
    rooms
}

/// As `close_into`, with lists of its own. Where there is no memory for them, all comes back.
pub fn close(
    alloc: Global,
    lanes: Lanes,
    senders: Vec<Sender>,
    seats: LaneSeats,
) -> Result<Vec<Vec<Request>>, CloseRefused>
    requires senders { sender_ids senders.items ≡ lane_ids lanes }
    requires seats { seat_ids seats ≡ lane_ids lanes }
    ensures { MatchResult result (λ left. Leaves senders.items seats left.items)
        (λ r. (r.lanes ≡ lanes) × (r.senders ≡ senders) × (r.seats ≡ seats)) }
{
    match rooms(alloc, senders.len()) {
        Ok(rooms) => Ok(close_into(lanes, senders, seats, rooms)),
        Err(_) => Err(CloseRefused {
            lanes,
            senders,
            seats,
        }),
    }
}
