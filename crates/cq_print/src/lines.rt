// The lines of a session.
ghost use Rattle.std.specs.Prelude.{◌≡◌, ◌++◌, ◌∷◌, [], codes, IfOk, OnErr, IsErr, string_bytes};
ghost use Rattle.std.specs.Fmt.{decimal};
ghost use Rattle.cq_print.specs.Text.{reply_line, reply_text, confirmed_line, session_line, opened_line};

use crate::body_text;
use cq_journal::Reply;
use std::alloc::{AllocError, Global};

/// The line of a reply to a client, with its LF: `cC published N`, `cC got D qQ LENGTH BODY`, `cC empty qQ`,
/// `cC busy qQ`, `cC acked D`, `cC unknown D` or `cC ended`.
pub fn reply_line(alloc: Global, client: u32, reply: &Reply) -> Result<Vec<u8>, AllocError>
    ensures { IfOk result (λ line. line.items ≡ reply_line client reply.now) }
{
    match reply {
        Reply::Published { number } => published_line(alloc, client, *number),
        Reply::Got {
            delivery,
            queue,
            body,
        } => got_line(alloc, client, *delivery, *queue, body.bytes()),
        Reply::Empty { queue } => empty_line(alloc, client, *queue),
        Reply::Busy { queue } => busy_line(alloc, client, *queue),
        Reply::Acked { delivery } => acked_line(alloc, client, *delivery),
        Reply::Unknown { delivery } => unknown_line(alloc, client, *delivery),
        Reply::Ended => ended_line(alloc, client),
    }
}

/// The first line of a session.
pub fn session_line(alloc: Global, number: u64) -> Result<Vec<u8>, AllocError>
    ensures { IfOk result (λ line. line.items ≡ session_line number) }
{
    Ok(format!(in alloc; "session {number}\n")?.into_bytes())
}

/// The line of a queue that held so many messages at the opening: `opened qQ COUNT`.
pub fn opened_line(alloc: Global, queue: u32, count: usize) -> Result<Vec<u8>, AllocError>
    ensures { IfOk result (λ line. line.items ≡ opened_line queue count) }
{
    Ok(format!(in alloc; "opened q{queue} {count}\n")?.into_bytes())
}

/// The line of a confirm.
pub fn confirmed_line(alloc: Global, client: u32, number: u64) -> Result<Vec<u8>, AllocError>
    ensures { IfOk result (λ line. line.items ≡ confirmed_line client number) }
{
    Ok(format!(in alloc; "c{client} confirmed {number}\n")?.into_bytes())
}

/// The line of a publish.
pub fn published_line(alloc: Global, client: u32, number: u64) -> Result<Vec<u8>, AllocError>
    ensures { IfOk result (λ line. line.items ≡ reply_line client (Reply.Published number)) }
{
    Ok(format!(in alloc; "c{client} published {number}\n")?.into_bytes())
}

/// The line of a delivery.
pub fn got_line(
    alloc: Global,
    client: u32,
    delivery: u32,
    queue: u32,
    body: &[u8],
) -> Result<Vec<u8>, AllocError>
    ensures { IfOk result (λ line. line.items ≡ reply_line client (Reply.Got delivery queue body.now)) }
{
    let length = body.len();
    let mut line = format!(in alloc; "c{client} got {delivery} q{queue} {length} ")?.into_bytes();
    let shown = body_text(alloc, body)?;
    line.extend_from_slice(&shown)?;
    line.push(b'\n')?;
    Ok(line)
}

/// The line of a get of a queue in which nothing waits.
pub fn empty_line(alloc: Global, client: u32, queue: u32) -> Result<Vec<u8>, AllocError>
    ensures { IfOk result (λ line. line.items ≡ reply_line client (Reply.Empty queue)) }
{
    Ok(format!(in alloc; "c{client} empty q{queue}\n")?.into_bytes())
}

/// The line of a get of a client that has 64 deliveries open.
pub fn busy_line(alloc: Global, client: u32, queue: u32) -> Result<Vec<u8>, AllocError>
    ensures { IfOk result (λ line. line.items ≡ reply_line client (Reply.Busy queue)) }
{
    Ok(format!(in alloc; "c{client} busy q{queue}\n")?.into_bytes())
}

/// The line of an acknowledgement.
pub fn acked_line(alloc: Global, client: u32, delivery: u32) -> Result<Vec<u8>, AllocError>
    ensures { IfOk result (λ line. line.items ≡ reply_line client (Reply.Acked delivery)) }
{
    Ok(format!(in alloc; "c{client} acked {delivery}\n")?.into_bytes())
}

/// The line of an acknowledgement of no open delivery.
pub fn unknown_line(alloc: Global, client: u32, delivery: u32) -> Result<Vec<u8>, AllocError>
    ensures { IfOk result (λ line. line.items ≡ reply_line client (Reply.Unknown delivery)) }
{
    Ok(format!(in alloc; "c{client} unknown {delivery}\n")?.into_bytes())
}

/// The line of a client that gave back what it had open.
pub fn ended_line(alloc: Global, client: u32) -> Result<Vec<u8>, AllocError>
    ensures { IfOk result (λ line. line.items ≡ reply_line client Reply.Ended) }
{
    Ok(format!(in alloc; "c{client} ended\n")?.into_bytes())
}
