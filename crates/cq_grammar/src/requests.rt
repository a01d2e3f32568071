// The queues and the bodies that words spell.
ghost use Rattle.std.specs.Prelude.{◌≡◌, map, [], IfOk};
ghost use Rattle.std.specs.Option.{option_map};
ghost use Rattle.std.specs.Result.{result_ok};
ghost use Rattle.hex.specs.Hex.{decode_of};
ghost use Rattle.cq_grammar.specs.Words.{number_of, each};
ghost use Rattle.cq_grammar.specs.Calls.{Reads, ReadsItems, Gives};
ghost use Rattle.cq_grammar.specs.Requests.{number_on, numbers_of, queue_within, with_queue, with_queues, queues_of, filled, bytes_of, body_of};

use crate::Why;
use crate::error::LineError;
use crate::lines::pieces;
use crate::numbers::number_of;
use cq_bytes::{Body, Queues, QueuesError};
use std::alloc::{AllocError, Global};

/// How many bytes a filled body may have.
const MOST_BYTES: u64 = 1_048_576;

/// The greatest byte.
const MOST_VALUE: u64 = 255;

/// The number that a word on a line of a request spells.
pub fn number_on(word: &[u8]) -> Result<u64, Why>
    ensures { result ≡ number_on word.now }
{
    number_of(word).ok_or(Why::Number)
}

/// This queue, where it is one of so many.
pub fn queue_within(count: u32, queue: u64) -> Result<u32, Why>
    ensures { result ≡ queue_within count queue }
{
    if queue < count as u64 {
        Ok(queue as u32)
    } else {
        Err(Why::Queue)
    }
}

/// The numbers that a word spells, with commas between them.
fn numbers_of(alloc: Global, word: &[u8]) -> Result<Vec<u64>, LineError>
    ensures { ReadsItems result (numbers_of word.now) }
{
    let pieces = pieces(alloc, word)?;
    numbers_on(alloc, &pieces)
}

/// The numbers that words spell, one each.
fn numbers_on(alloc: Global, words: &[&[u8]]) -> Result<Vec<u64>, LineError>
    ensures { ReadsItems result (each number_on (map (λ w. w.now) words.now)) }
{
    let mut numbers = Vec::new(alloc);
    for word in words {
        if numbers.push(number_on(word)?).is_err() {
            return Err(LineError::Memory);
        }
    }
    Ok(numbers)
}

/// Adds a queue of so many.
fn add_queue(queues: &mut Queues, count: u32, queue: u64) -> Result<(), LineError>
    ensures { Gives result queues.new (with_queue count queues.old queue) }
{
    let queue = queue_within(count, queue)?;
    match queues.push(queue) {
        Ok(()) => Ok(()),
        Err(QueuesError::Memory) => Err(LineError::Memory),
        Err(QueuesError::Range | QueuesError::Repeated) => Err(LineError::Bad(Why::Queue)),
    }
}

/// The queues, of so many, that a word spells.
pub fn queues_of(alloc: Global, count: u32, word: &[u8]) -> Result<Queues, LineError>
    ensures { Reads result (queues_of count word.now) }
{
    let numbers = numbers_of(alloc, word)?;
    queues_among(alloc, count, &numbers)
}

/// The queues, of so many, with these numbers.
fn queues_among(alloc: Global, count: u32, numbers: &[u64]) -> Result<Queues, LineError>
    ensures { Reads result (with_queues count [] numbers.now) }
{
    let mut queues = Queues::new(alloc);
    for number in numbers {
        add_queue(&mut queues, count, *number)?;
    }
    Ok(queues)
}

/// So many bytes of one value.
fn filled(alloc: Global, count: &[u8], value: &[u8]) -> Result<Option<Vec<u8>>, AllocError>
    ensures { IfOk result
        (λ bytes. option_map (λ v. v.items) bytes ≡ filled (number_of count.now) (number_of value.now)) }
{
    let (Some(count), Some(value)) = (number_of(count), number_of(value)) else {
        return Ok(None);
    };
    if count > MOST_BYTES || value > MOST_VALUE {
        return Ok(None);
    }
    Ok(Some(vec![in alloc; value as u8; count as usize]?))
}

/// The bytes that hexadecimal digits spell.
fn unhexed(alloc: Global, digits: &[u8]) -> Result<Option<Vec<u8>>, AllocError>
    ensures { IfOk result (λ bytes. option_map (λ v. v.items) bytes ≡ result_ok (decode_of digits.now)) }
{
    match hex::decode(alloc, digits) {
        Ok(bytes) => Ok(Some(bytes)),
        Err(hex::FromHexError::OutOfMemory) => Err(AllocError),
        Err(_) => Ok(None),
    }
}

/// The bytes that words spell: `empty`, `text W`, `hex H` or `fill L B`.
fn bytes_of(alloc: Global, words: &[&[u8]]) -> Result<Option<Vec<u8>>, AllocError>
    ensures { IfOk result (λ bytes. option_map (λ v. v.items) bytes ≡ bytes_of (map (λ w. w.now) words.now)) }
{
    match words {
        [kind] if *kind == b"empty".as_slice() => Ok(Some(Vec::new(alloc))),
        [kind, text] if *kind == b"text".as_slice() => Ok(Some(text.to_vec(alloc)?)),
        [kind, digits] if *kind == b"hex".as_slice() => unhexed(alloc, digits),
        [kind, count, value] if *kind == b"fill".as_slice() => filled(alloc, count, value),
        _ => Ok(None),
    }
}

/// The body that words spell, where it is shorter than the threshold.
pub fn body_of(alloc: Global, threshold: u32, words: &[&[u8]]) -> Result<Body, LineError>
    ensures { Reads result (body_of threshold (map (λ w. w.now) words.now)) }
{
    let Some(bytes) = bytes_of(alloc, words)? else {
        return Err(LineError::Bad(Why::Body));
    };
    if bytes.len() > Body::MOST_BYTES || bytes.len() >= threshold as usize {
        return Err(LineError::Bad(Why::Body));
    }
    Ok(Body::from_vec(bytes))
}
