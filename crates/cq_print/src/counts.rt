// How many of the opened messages each queue has.
ghost use Rattle.std.specs.Prelude.{IfOk, OnOk};
ghost use Rattle.std.specs.Ordering.{nat_cmp};
ghost use Rattle.std.specs.BTreeMap.{IsOrdered};
ghost use Rattle.cq_print.specs.Counts.{CountsOne, HasCounts};

use cq_journal::Lines;
use std::alloc::{AllocError, Global};
use std::collections::BTreeMap;

/// Counts one more message of a queue.
fn count_one(counts: &mut BTreeMap<u32, usize>, queue: u32) -> Result<(), AllocError>
    ensures ok { OnOk result (CountsOne counts.old counts.new queue) }
    ensures ordered { OnOk result (IsOrdered nat_cmp counts.new) }
{
    let before = match counts.get(&queue) {
        Some(count) => *count,
        None => 0,
    };
    // No list in memory is as long as that.
    let count = before.checked_add(1).ok_or(AllocError)?;
    match counts.insert(queue, count) {
        Ok(_) => Ok(()),
        Err(_) => Err(AllocError),
    }
}

/// How many messages each queue has, of the queues that have some, in one pass over the lines.
pub fn counts_of(alloc: Global, lines: &Lines) -> Result<BTreeMap<u32, usize>, AllocError>
    ensures ok { IfOk result (λ counts. HasCounts counts lines.now) }
    ensures ordered { IfOk result (λ counts. IsOrdered nat_cmp counts) }
{
    let mut counts = BTreeMap::new(alloc);
    let mut at: usize = 0;
    while let Some((queue, _, _)) = lines.line(at) {
        count_one(&mut counts, queue)?;
        // No list in memory is as long as that.
        let Some(next) = at.checked_add(1) else {
            return Err(AllocError);
        };
        at = next;
    }
    Ok(counts)
}
