// The entries that concern each client.
ghost use Rattle.std.specs.Prelude.{reverse, IfOk, OnOk};
ghost use Rattle.cq_print.specs.Clients.{Keeps, KeepsEntry, HasEntries};

use cq_journal::{Entry, Event};
use std::alloc::{AllocError, Global};
use std::collections::BTreeMap;

/// The entries of each client that has some, in order.
pub(crate) type Clients<'a> = BTreeMap<u32, Vec<&'a Entry>>;

/// Adds an entry to those of a client.
fn keep<'a>(
    clients: &mut Clients<'a>,
    alloc: Global,
    client: u32,
    entry: &'a Entry,
) -> Result<(), AllocError>
    ensures { OnOk result (Keeps clients.old clients.new client entry.now) }
{
    match clients.get_mut(&client) {
        Some(entries) => entries.push(entry)?,
        None => {
            clients.insert(client, vec![in alloc; entry]?)?;
        }
    }
    Ok(())
}

/// Adds an entry to those of the client that it concerns, if any.
fn keep_entry<'a>(
    clients: &mut Clients<'a>,
    alloc: Global,
    entry: &'a Entry,
) -> Result<(), AllocError>
    ensures { OnOk result (KeepsEntry clients.old clients.new entry.now) }
{
    match &entry.event {
        Event::Published { client, .. }
        | Event::Delivered { client, .. }
        | Event::Empty { client, .. }
        | Event::Busy { client, .. }
        | Event::Acked { client, .. }
        | Event::Unknown { client, .. }
        | Event::Ended { client }
        | Event::Confirmed { client, .. } => keep(clients, alloc, *client, entry),
        _ => Ok(()),
    }
}

/// The entries of each client, in one pass over all entries.
pub(crate) fn clients_of(alloc: Global, entries: &[Entry]) -> Result<Clients<'_>, AllocError>
    ensures { IfOk result (λ clients. HasEntries clients (reverse entries.now)) }
{
    let mut clients = BTreeMap::new(alloc);
    for entry in entries {
        keep_entry(&mut clients, alloc, entry)?;
    }
    Ok(clients)
}
