// The names of a queue's files among those of a folder.
ghost use Rattle.std.specs.Prelude.{◌≡◌, filter, IfOk};
ghost use Rattle.cq_back_q.specs.Folder.{is_of, is_own};

use cq_disk::{Kind, Name};
use std::alloc::{AllocError, Global};

/// The names of a queue's indexes and small stores among these, in their order.
pub(crate) fn names_of(alloc: Global, queue: u32, names: &[Name]) -> Result<Vec<Name>, AllocError>
    ensures { IfOk result (λ own. own.items ≡ filter (is_of queue) names.now) }
{
    let mut own = Vec::new(alloc);
    for name in names {
        if is_of(queue, name) {
            own.push(*name)?;
        }
    }
    Ok(own)
}

/// Whether this is the name of an index or a small store of the queue.
fn is_of(queue: u32, name: &Name) -> bool
    ensures { result ≡ is_of queue name.now }
{
    name.queue == queue && is_own(name.kind)
}

/// Whether a file of this kind belongs to a queue alone.
fn is_own(kind: Kind) -> bool
    ensures { result ≡ is_own kind }
{
    match kind {
        Kind::Index | Kind::Small => true,
        Kind::Shared => false,
    }
}
