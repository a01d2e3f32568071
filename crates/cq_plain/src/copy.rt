// Copies of events.
ghost use Rattle.std.specs.Prelude.{◌≡◌, IfOk};

use crate::opened::{lines_of, listed};
use cq_bytes::{Body, Queues};
use cq_journal::{Event, Lines};
use std::alloc::{AllocError, Global};

/// The same queues once more.
fn copy_queues(queues: &Queues) -> Result<Queues, AllocError>
    ensures { IfOk result (λ copy. copy ≡ queues.now) }
{
    queues.clone()
}

/// The same body once more.
pub(crate) fn copy_body(body: &Body) -> Result<Body, AllocError>
    ensures { IfOk result (λ copy. copy ≡ body.now) }
{
    body.clone()
}

/// The same messages once more.
fn copy_lines(alloc: Global, lines: &Lines) -> Result<Lines, AllocError>
    ensures { IfOk result (λ copy. copy ≡ lines.now) }
{
    lines_of(alloc, &listed(alloc, lines)?)
}

/// The same event once more.
pub(crate) fn copy_event(alloc: Global, event: &Event) -> Result<Event, AllocError>
    ensures { IfOk result (λ copy. copy ≡ event.now) }
{
    match event {
        Event::Opened { lines } => Ok(Event::Opened {
            lines: copy_lines(alloc, lines)?,
        }),
        Event::Published {
            client,
            number,
            id,
            queues,
            body,
        } => Ok(Event::Published {
            client: *client,
            number: *number,
            id: *id,
            queues: copy_queues(queues)?,
            body: copy_body(body)?,
        }),
        &Event::Delivered {
            client,
            delivery,
            queue,
            id,
        } => Ok(Event::Delivered {
            client,
            delivery,
            queue,
            id,
        }),
        &Event::Empty { client, queue } => Ok(Event::Empty { client, queue }),
        &Event::Busy { client, queue } => Ok(Event::Busy { client, queue }),
        &Event::Acked { client, delivery } => Ok(Event::Acked { client, delivery }),
        &Event::Unknown { client, delivery } => Ok(Event::Unknown { client, delivery }),
        &Event::Dropped { client, delivery } => Ok(Event::Dropped { client, delivery }),
        &Event::Ended { client } => Ok(Event::Ended { client }),
        &Event::Confirmed { client, number, id } => Ok(Event::Confirmed { client, number, id }),
        &Event::Settled { queue, id } => Ok(Event::Settled { queue, id }),
    }
}
