// The numbers of a queue's files among names.
ghost use Rattle.std.specs.Prelude.{◌≡◌, ◌↔◌, true, IfOk};
ghost use Rattle.cq_back_q.specs.Numbers.{AreBelow, AreNumbersOf, IsNext, Rise};

use cq_disk::{Kind, Name};
use std::alloc::{AllocError, Global};

/// Rising numbers of a queue's files of this kind among these names: all of them, where the names are in order.
pub(crate) fn numbers_of(
    alloc: Global,
    kind: Kind,
    queue: u32,
    names: &[Name],
) -> Result<Vec<u64>, AllocError>
    ensures { IfOk result (λ numbers. AreNumbersOf kind queue names.now numbers.items) }
{
    let mut numbers = Vec::new(alloc);
    for name in names {
        if is_next(kind, queue, &numbers, name) {
            numbers.push(name.number)?;
        }
    }
    Ok(numbers)
}

/// Whether a name is that of a queue's file of this kind, with a number above these.
fn is_next(kind: Kind, queue: u32, numbers: &[u64], name: &Name) -> bool
    requires { Rise numbers.now }
    ensures { (result ≡ true) ↔ IsNext kind queue numbers.now name.now }
{
    name.kind == kind && name.queue == queue && are_below(name.number, numbers)
}

/// Whether each of these numbers, which rise, is below this one.
fn are_below(number: u64, numbers: &[u64]) -> bool
    requires { Rise numbers.now }
    ensures { (result ≡ true) ↔ AreBelow number numbers.now }
{
    match numbers.last() {
        Some(last) => *last < number,
        None => true,
    }
}
