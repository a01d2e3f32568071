// The messages of an opening.
ghost use Rattle.std.specs.Prelude.{◌≡◌, IfOk};
ghost use Rattle.std.specs.List.{list_all};
ghost use Rattle.cq_plain.specs.Table.{agree, are_lines};

use crate::copy::copy_body;
use cq_bytes::Body;
use cq_journal::{Line, Lines};
use std::alloc::{AllocError, Global};

/// A body with a copy of these bytes, which are those of a message.
fn body_of(alloc: Global, bytes: &[u8]) -> Result<Body, AllocError>
    ensures { IfOk result (λ body. body ≡ bytes.now) }
{
    // No message has more.
    if bytes.len() > Body::MOST_BYTES {
        return Err(AllocError);
    }
    Body::copy(alloc, bytes)
}

/// The messages one by one, copied.
pub(crate) fn listed(alloc: Global, lines: &Lines) -> Result<Vec<Line>, AllocError>
    ensures { IfOk result (λ list. list.items ≡ lines.now) }
{
    let mut list = Vec::new(alloc);
    let mut at: usize = 0;
    while let Some((queue, id, bytes)) = lines.line(at) {
        let body = body_of(alloc, bytes)?;
        list.push(Line { queue, id, body })?;
        // No list in memory is as long as that.
        let Some(next) = at.checked_add(1) else {
            return Err(AllocError);
        };
        at = next;
    }
    Ok(list)
}

/// The messages of a list as those of an opening.
pub(crate) fn lines_of(alloc: Global, list: &[Line]) -> Result<Lines, AllocError>
    ensures { IfOk result (λ lines. lines ≡ list.now) }
{
    let mut lines = Lines::new(alloc);
    for line in list {
        lines.push(line.queue, line.id, copy_body(&line.body)?)?;
    }
    Ok(lines)
}

/// Whether two messages may stand in one opening: one id stands in different queues, and has one body.
fn agree(left: &Line, right: &Line) -> bool
    ensures { result ≡ agree left.now right.now }
{
    left.id != right.id || (left.queue != right.queue && left.body.bytes() == right.body.bytes())
}

/// Whether a message may stand in one opening with each of the others.
fn agree_all(line: &Line, others: &[Line]) -> bool
    ensures { result ≡ list_all (agree line.now) others.now }
{
    others.iter().all(|other| agree(line, other))
}

/// Whether the messages may be those of an opening.
pub(crate) fn are_lines(lines: &[Line]) -> bool
    ensures { result ≡ are_lines lines.now }
{
    let mut left = lines;
    while let Some((first, rest)) = left.split_first() {
        if first.id == 0 || !agree_all(first, rest) {
            return false;
        }
        left = rest;
    }
    true
}
