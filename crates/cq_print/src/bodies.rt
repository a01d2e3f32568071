// The bodies of a journal's messages, by their ids.
ghost use Rattle.std.specs.Prelude.{◌≡◌, ℕ, reverse, unwrap_or, [], IfOk, OnOk};
ghost use Rattle.cq_print.specs.Bodies.{shown, Notes, NotesLines, NotesEvent, HasBodies};

use cq_journal::{Entry, Event, Lines};
use std::alloc::{AllocError, Global};
use std::collections::BTreeMap;

/// Notes the body of an id, in place of an earlier one.
fn note<'a>(
    bodies: &mut BTreeMap<u128, &'a [u8]>,
    id: u128,
    body: &'a [u8],
) -> Result<(), AllocError>
    ensures { OnOk result (Notes bodies.old bodies.new id body.now) }
{
    match bodies.insert(id, body) {
        Ok(_) => Ok(()),
        Err(_) => Err(AllocError),
    }
}

/// Notes the bodies of opened lines.
fn note_lines<'a>(bodies: &mut BTreeMap<u128, &'a [u8]>, lines: &'a Lines) -> Result<(), AllocError>
    ensures { OnOk result (NotesLines bodies.old bodies.new lines.now) }
{
    let mut at: usize = 0;
    while let Some((_, id, body)) = lines.line(at) {
        note(bodies, id, body)?;
        // No list in memory is as long as that.
        let Some(next) = at.checked_add(1) else {
            return Err(AllocError);
        };
        at = next;
    }
    Ok(())
}

/// Notes the bodies that an event brings.
fn note_event<'a>(bodies: &mut BTreeMap<u128, &'a [u8]>, event: &'a Event) -> Result<(), AllocError>
    ensures { OnOk result (NotesEvent bodies.old bodies.new event.now) }
{
    match event {
        Event::Opened { lines } => note_lines(bodies, lines),
        Event::Published { id, body, .. } => note(bodies, *id, body.bytes()),
        _ => Ok(()),
    }
}

/// The bodies of all messages of a journal.
pub fn bodies_of(alloc: Global, entries: &[Entry]) -> Result<BTreeMap<u128, &[u8]>, AllocError>
    ensures { IfOk result (λ bodies. HasBodies bodies (reverse entries.now)) }
{
    let mut bodies = BTreeMap::new(alloc);
    for entry in entries {
        note_event(&mut bodies, &entry.event)?;
    }
    Ok(bodies)
}

/// The body of an id, and an empty one where there is none.
pub fn body_of<'a>(bodies: &BTreeMap<u128, &'a [u8]>, id: u128) -> &'a [u8]
    ensures { result.now ≡ unwrap_or (shown bodies.now id) [] }
{
    match bodies.get(&id) {
        Some(body) => *body,
        None => &[],
    }
}
