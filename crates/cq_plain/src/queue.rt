// What stands in a queue, and what waits there.
ghost use Rattle.std.specs.Prelude.{◌≡◌, ◌&&◌, ◌++◌, not, reverse, map, IfOk, OnOk};
ghost use Rattle.cq_bytes.specs.Numbers.{contains};
ghost use Rattle.cq_journal.specs.History.{adds, is_out, line, waiting, settles, settled, opened_in};

use crate::deliveries::{Handed, acked, is_out, open_deliveries};
use crate::opened::listed;
use cq_journal::{Entry, Event, Line};
use std::alloc::{AllocError, Global};

/// Adds the ids of the messages that stand in the queue.
fn push_lines(ids: &mut Vec<u128>, queue: u32, lines: &[Line]) -> Result<(), AllocError>
    ensures { OnOk result (ids.new.items ≡ ids.old.items ++ map (λ m. m.id) (opened_in queue lines.now)) }
{
    for line in lines {
        if line.queue == queue {
            ids.push(line.id)?;
        }
    }
    Ok(())
}

/// Adds the ids of the messages that an event adds to the queue.
fn push_added(
    alloc: Global,
    ids: &mut Vec<u128>,
    queue: u32,
    event: &Event,
) -> Result<(), AllocError>
    ensures { OnOk result (ids.new.items ≡ ids.old.items ++ map (λ m. m.id) (adds queue event.now)) }
{
    match event {
        Event::Opened { lines } => push_lines(ids, queue, &listed(alloc, lines)?)?,
        Event::Published { id, queues, .. } => {
            if queues.numbers().contains(&queue) {
                ids.push(*id)?;
            }
        }
        _ => {}
    }
    Ok(())
}

/// The ids of every message of the queue, the oldest first.
fn line(alloc: Global, entries: &[Entry], queue: u32) -> Result<Vec<u128>, AllocError>
    ensures { IfOk result (λ ids. ids.items ≡ map (λ m. m.id) (line (reverse entries.now) queue)) }
{
    let mut ids = Vec::new(alloc);
    for entry in entries {
        push_added(alloc, &mut ids, queue, &entry.event)?;
    }
    Ok(ids)
}

/// Whether an id of the queue neither was removed nor is out.
fn is_waiting(removed: &[u128], out: &[Handed], queue: u32, id: u128) -> bool
    ensures { result ≡ (not (contains removed.now id) && not (is_out out.now queue id)) }
{
    !removed.contains(&id) && !is_out(out, queue, id)
}

/// The ids of what the queue hands out next, in order.
pub(crate) fn waiting(alloc: Global, entries: &[Entry], queue: u32) -> Result<Vec<u128>, AllocError>
    ensures { IfOk result (λ ids. ids.items ≡ map (λ m. m.id) (waiting (reverse entries.now) queue)) }
{
    let out = open_deliveries(alloc, entries)?;
    let removed = acked(alloc, entries, queue)?;
    let mut ids = line(alloc, entries, queue)?;
    ids.retain(|id| is_waiting(&removed, &out, queue, *id));
    Ok(ids)
}

/// Adds the id that an event settles in the queue.
fn push_settled(ids: &mut Vec<u128>, queue: u32, event: &Event) -> Result<(), AllocError>
    ensures { OnOk result (ids.new.items ≡ ids.old.items ++ settles queue event.now) }
{
    if let Event::Settled { queue: place, id } = event {
        if *place == queue {
            ids.push(*id)?;
        }
    }
    Ok(())
}

/// The ids that were settled in the queue.
pub(crate) fn settled(alloc: Global, entries: &[Entry], queue: u32) -> Result<Vec<u128>, AllocError>
    ensures { IfOk result (λ ids. ids.items ≡ settled (reverse entries.now) queue) }
{
    let mut ids = Vec::new(alloc);
    for entry in entries {
        push_settled(&mut ids, queue, &entry.event)?;
    }
    Ok(ids)
}
