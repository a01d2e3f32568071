// The words of a script that carry a value.
ghost use Rattle.std.specs.Prelude.{◌≡◌, ◌==◌, ◌∷◌, [], ◌<◌, ◌≤◌, length, IfOk, IfSome};
ghost use Rattle.std.specs.List.{position};
ghost use Rattle.std.specs.Option.{option_map};
ghost use Rattle.cq_script.specs.Words.{plain_step_of, halt_of, halves, stop_of, crash_of, step_of};

use crate::numbers::number_of;
use crate::{Halt, StepWord};
use cq_bytes::{Body, Queues, QueuesError};
use cq_inbox::Request;
use std::alloc::{AllocError, Global};

/// The step that a word of the schedule names.
pub fn step_of(word: &[u8]) -> Option<StepWord>
    ensures { result ≡ step_of word.now }
{
    match word {
        [b'!', rest @ ..] => crash_of(rest),
        _ => plain_step_of(word),
    }
}

/// The crash or the stop that a word names after its `!`: `N`, or `N/K:S`.
fn crash_of(word: &[u8]) -> Option<StepWord>
    ensures { result ≡ crash_of word.now }
{
    match halves(word, b'/') {
        Some((image, rest)) => stop_of(number_of(image)?, rest),
        None => Some(StepWord::Crash {
            image: number_of(word)?,
        }),
    }
}

/// The stop with this image that a word names after its `/`: `K:S`.
fn stop_of(image: u64, word: &[u8]) -> Option<StepWord>
    ensures { result ≡ stop_of image word.now }
{
    let (calls, step) = halves(word, b':')?;
    let calls = number_of(calls)?;
    let step = halt_of(step)?;
    Some(StepWord::Stop { image, calls, step })
}

/// What stands in a word before a byte and what stands after it, where the byte first stands there.
fn halves(word: &[u8], byte: u8) -> Option<(&[u8], &[u8])>
    ensures { option_map (λ parts. (parts.0.now, parts.1.now)) result ≡ halves byte word.now }
{
    let place = place_of(word, byte)?;
    Some((&word[..place], &word[place + 1..]))
}

/// Where a byte first stands in a word.
fn place_of(word: &[u8], byte: u8) -> Option<usize>
    ensures first { result ≡ position (λ b. b == byte) word.now }
    ensures within { IfSome result (λ place. place < length word.now) }
{
    word.iter().position(|b| *b == byte)
}

/// The step that a word names within which the disk may stop.
fn halt_of(word: &[u8]) -> Option<Halt>
    ensures { result ≡ halt_of word.now }
{
    if word == b"t0".as_slice() {
        Some(Halt::Turn(0))
    } else if word == b"w".as_slice() {
        Some(Halt::Write)
    } else {
        None
    }
}

/// The step that a word names which is no crash.
fn plain_step_of(word: &[u8]) -> Option<StepWord>
    ensures { result ≡ plain_step_of word.now }
{
    if word == b"c0".as_slice() {
        Some(StepWord::Client(0))
    } else if word == b"t0".as_slice() {
        Some(StepWord::Turn(0))
    } else if word == b"w".as_slice() {
        Some(StepWord::Write)
    } else {
        None
    }
}

/// The queue 0 alone.
fn queue_0(alloc: Global) -> Result<Queues, AllocError>
    ensures { IfOk result (λ queues. queues ≡ 0 ∷ []) }
{
    let mut queues = Queues::new(alloc);
    match queues.push(0) {
        Ok(()) => Ok(queues),
        Err(_) => Err(AllocError),
    }
}

/// The request that publishes a text to queue 0.
pub fn publish(alloc: Global, text: &[u8]) -> Result<Request, AllocError>
    requires { length text.now ≤ 64 }
    ensures { IfOk result (λ request. request ≡ Request.Publish (0 ∷ []) text.now) }
{
    Ok(Request::Publish {
        queues: queue_0(alloc)?,
        body: Body::copy(alloc, text)?,
    })
}
