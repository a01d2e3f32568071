// The words of a schedule.
ghost use Rattle.std.specs.Prelude.{◌≡◌, map, ok_or};
ghost use Rattle.cq_grammar.specs.Words.{halves, each};
ghost use Rattle.cq_grammar.specs.Calls.{ReadsItems};
ghost use Rattle.cq_grammar.specs.Steps.{number_in, client_within, client_of, letter_of, halt_of, step_within, plain_step_of, times_of, repeated_by, stop_by, crash_by, run_of};

use crate::error::LineError;
use crate::numbers::{halves, number_of};
use crate::{Halt, StepWord, Why};
use std::alloc::Global;

/// A step of a schedule, and how often it is made.
#[derive(Clone, Copy, Debug, PartialEq, Eq)]
pub struct Run {
    pub step: StepWord,
    pub times: u32,
}

/// How often a word may repeat its step.
const MOST_TIMES: u64 = 1_000_000;

/// The number in a word of a schedule.
fn number_in(word: &[u8]) -> Result<u64, Why>
    ensures { result ≡ number_in word.now }
{
    number_of(word).ok_or(Why::Step)
}

/// This client, where it is one of so many.
pub fn client_within(clients: u32, client: u64) -> Result<u32, Why>
    ensures { result ≡ client_within clients client }
{
    if client < clients as u64 {
        Ok(client as u32)
    } else {
        Err(Why::Client)
    }
}

/// The client, of so many, whose number these digits are.
fn client_of(clients: u32, digits: &[u8]) -> Result<u32, Why>
    ensures { result ≡ client_of clients digits.now }
{
    client_within(clients, number_in(digits)?)
}

/// The step of the writer or of the compactor that a word names.
fn letter_of(word: &[u8]) -> Result<Halt, Why>
    ensures { result ≡ letter_of word.now }
{
    if word == b"w".as_slice() {
        Ok(Halt::Write)
    } else if word == b"m".as_slice() {
        Ok(Halt::Shift)
    } else {
        Err(Why::Step)
    }
}

/// The step that a word names within which the disk may stop.
fn halt_of(clients: u32, word: &[u8]) -> Result<Halt, Why>
    ensures { result ≡ halt_of clients word.now }
{
    let Some((first, rest)) = word.split_first() else {
        return Err(Why::Step);
    };
    if *first == b't' {
        Ok(Halt::Turn(client_of(clients, rest)?))
    } else {
        letter_of(word)
    }
}

/// Such a step as a step of the schedule.
fn step_within(halt: Halt) -> StepWord
    ensures { result ≡ step_within halt }
{
    match halt {
        Halt::Turn(client) => StepWord::Turn(client),
        Halt::Write => StepWord::Write,
        Halt::Shift => StepWord::Shift,
    }
}

/// The step that a word names which may be repeated.
fn plain_step_of(clients: u32, word: &[u8]) -> Result<StepWord, Why>
    ensures { result ≡ plain_step_of clients word.now }
{
    let Some((first, rest)) = word.split_first() else {
        return Err(Why::Step);
    };
    if *first == b'c' {
        Ok(StepWord::Client(client_of(clients, rest)?))
    } else {
        Ok(step_within(halt_of(clients, word)?))
    }
}

/// How often a step is made, by what stands after its `*`.
fn times_of(word: &[u8]) -> Result<u32, Why>
    ensures { result ≡ times_of word.now }
{
    let times = number_in(word)?;
    if 1 <= times && times <= MOST_TIMES {
        Ok(times as u32)
    } else {
        Err(Why::Step)
    }
}

/// The step of a word, once or as often as it says after its `*`.
fn repeated(clients: u32, word: &[u8]) -> Result<Run, Why>
    ensures { result ≡ repeated_by clients word.now (halves 42 word.now) }
{
    match halves(word, b'*') {
        Some((name, times)) => {
            let times = times_of(times)?;
            let step = plain_step_of(clients, name)?;
            Ok(Run { step, times })
        }
        None => Ok(Run {
            step: plain_step_of(clients, word)?,
            times: 1,
        }),
    }
}

/// The stop with this image that a word names after its `/`: `K:S`.
fn stop_of(clients: u32, image: u64, word: &[u8]) -> Result<StepWord, Why>
    ensures { result ≡ stop_by clients image (halves 58 word.now) }
{
    let Some((calls, step)) = halves(word, b':') else {
        return Err(Why::Step);
    };
    let calls = number_in(calls)?;
    let step = halt_of(clients, step)?;
    Ok(StepWord::Stop { image, calls, step })
}

/// The crash or the stop that a word names after its `!`: `N`, or `N/K:S`.
fn crash_of(clients: u32, word: &[u8]) -> Result<StepWord, Why>
    ensures { result ≡ crash_by clients word.now (halves 47 word.now) }
{
    match halves(word, b'/') {
        Some((image, rest)) => stop_of(clients, number_in(image)?, rest),
        None => Ok(StepWord::Crash {
            image: number_in(word)?,
        }),
    }
}

/// The step of a word of the schedule, and how often it is made.
fn run_of(clients: u32, word: &[u8]) -> Result<Run, Why>
    ensures { result ≡ run_of clients word.now }
{
    let Some((first, rest)) = word.split_first() else {
        return Err(Why::Step);
    };
    if *first == b'!' {
        Ok(Run {
            step: crash_of(clients, rest)?,
            times: 1,
        })
    } else {
        repeated(clients, word)
    }
}

/// The steps of the words of a schedule.
pub fn runs_of(alloc: Global, clients: u32, words: &[&[u8]]) -> Result<Vec<Run>, LineError>
    ensures { ReadsItems result (each (run_of clients) (map (λ w. w.now) words.now)) }
{
    let mut runs = Vec::new(alloc);
    for word in words {
        if runs.push(run_of(clients, word)?).is_err() {
            return Err(LineError::Memory);
        }
    }
    Ok(runs)
}
