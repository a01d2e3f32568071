// One line after another, by its words.
ghost use Rattle.std.specs.Prelude.{◌≡◌, ◌∷◌, [], map, IfOk, OnOk, IfSome};

use crate::stream::Stream;
use crate::texts::{publish, step_of};
use crate::{StepWord, Steps, Why};
use cq_bytes::is_text;
use cq_inbox::Request;
use std::alloc::{AllocError, Global};

/// Why a line wasn't read.
#[derive(Clone, Copy, Debug, PartialEq, Eq)]
pub enum LineError {
    /// Memory ran out.
    Memory,
    /// The line is bad.
    Bad(Why),
}

/// How many publishes a script may have.
const MOST_PUBLISHES: usize = 4096;

/// How many gets a script may have.
const MOST_GETS: usize = 64;

/// How many words the schedule may have.
const MOST_STEPS: usize = 10_000;

/// How many of them may be crashes.
const MOST_CRASHES: usize = 1000;

/// What the lines so far say.
#[derive(Debug, Drop)]
pub struct Reading {
    pub requests: Stream,
    pub steps: Steps,
    pub started: bool,
    pub scheduled: Option<u64>,
}

impl From<AllocError> for LineError {
    ghost use Rattle.cq_script.specs.declared.reading.LineError.TheVariants.{Memory};

    ghost from_gives = { λ _ e. e ≡ Memory };

    fn from(_: AllocError) -> Self {
        LineError::Memory
    }
}

impl Reading {
    ghost use Rattle.cq_script.specs.Grammar.{Gives, nothing_read, take_client, take_get, take_publish, take_schedule, take_words};

    /// Before the first line.
    pub fn new(alloc: Global) -> Reading
        ensures { result ≡ nothing_read }
    {
        Reading {
            requests: Stream::new(alloc),
            steps: Steps::new(alloc),
            started: false,
            scheduled: None,
        }
    }

    /// Takes the words behind `client`.
    fn take_client(&mut self, rest: &[&[u8]]) -> Result<(), LineError>
        ensures { Gives result self.new (take_client self.old (map (λ w. w.now) rest.now)) }
    {
        let [client] = rest else {
            return Err(LineError::Bad(Why::Word));
        };
        if *client != b"0".as_slice() {
            return Err(LineError::Bad(Why::Client));
        }
        if self.started {
            return Err(LineError::Bad(Why::Order));
        }
        self.started = true;
        Ok(())
    }

    /// Takes the words behind `get`.
    fn take_get(&mut self, rest: &[&[u8]]) -> Result<(), LineError>
        ensures { Gives result self.new (take_get self.old (map (λ w. w.now) rest.now)) }
    {
        if !self.started {
            return Err(LineError::Bad(Why::Client));
        }
        if self.scheduled.is_some() {
            return Err(LineError::Bad(Why::Order));
        }
        let [queue] = rest else {
            return Err(LineError::Bad(Why::Word));
        };
        if *queue != b"0".as_slice() {
            return Err(LineError::Bad(Why::Queue));
        }
        if self.requests.gets() >= MOST_GETS {
            return Err(LineError::Bad(Why::Many));
        }
        self.requests.push_get(0)?;
        Ok(())
    }

    /// Takes the words behind `publish`.
    fn take_publish(&mut self, alloc: Global, rest: &[&[u8]]) -> Result<(), LineError>
        ensures { Gives result self.new (take_publish self.old (map (λ w. w.now) rest.now)) }
    {
        if !self.started {
            return Err(LineError::Bad(Why::Client));
        }
        if self.scheduled.is_some() {
            return Err(LineError::Bad(Why::Order));
        }
        let [queues, kind, texts @ ..] = rest else {
            return Err(LineError::Bad(Why::Word));
        };
        if *queues != b"0".as_slice() {
            return Err(LineError::Bad(Why::Queue));
        }
        let [text] = texts else {
            return Err(LineError::Bad(Why::Body));
        };
        if *kind != b"text".as_slice() || !is_text(text) {
            return Err(LineError::Bad(Why::Body));
        }
        if self.requests.publishes() >= MOST_PUBLISHES {
            return Err(LineError::Bad(Why::Many));
        }
        let request = publish(alloc, text)?;
        self.requests.push_publish(request)?;
        Ok(())
    }

    /// Takes the words behind `schedule`, in the line with this number.
    fn take_schedule(&mut self, number: u64, rest: &[&[u8]]) -> Result<(), LineError>
        ensures { Gives result self.new (take_schedule number self.old (map (λ w. w.now) rest.now)) }
    {
        if rest.is_empty() {
            return Err(LineError::Bad(Why::Word));
        }
        if !self.started {
            return Err(LineError::Bad(Why::Client));
        }
        if self.scheduled.is_some() {
            return Err(LineError::Bad(Why::Order));
        }
        if let Err(error) = take_steps(&mut self.steps, rest) {
            return Err(error);
        }
        let words = self.steps.words();
        if words.len() > MOST_STEPS || crashes(words) > MOST_CRASHES {
            return Err(LineError::Bad(Why::Many));
        }
        self.scheduled = Some(number);
        Ok(())
    }

    /// Takes the words of the line with this number.
    pub fn take_words(
        &mut self,
        alloc: Global,
        number: u64,
        words: &[&[u8]],
    ) -> Result<(), LineError>
        ensures { Gives result self.new (take_words number self.old (map (λ w. w.now) words.now)) }
    {
        let Some((first, rest)) = words.split_first() else {
            return Err(LineError::Bad(Why::Word));
        };
        if *first == b"client".as_slice() {
            self.take_client(rest)
        } else if *first == b"publish".as_slice() {
            self.take_publish(alloc, rest)
        } else if *first == b"get".as_slice() {
            self.take_get(rest)
        } else if *first == b"schedule".as_slice() {
            self.take_schedule(number, rest)
        } else {
            Err(LineError::Bad(Why::Word))
        }
    }
}

ghost use Rattle.cq_script.specs.Grammar.{GivesSteps, take_step, take_steps};
ghost use Rattle.cq_script.specs.Scripts.{is_crash, crashes};

/// Whether a step ends the session with a crash.
fn is_crash(step: StepWord) -> bool
    ensures { result ≡ is_crash step }
{
    match step {
        StepWord::Crash { .. } | StepWord::Stop { .. } => true,
        StepWord::Client(_) | StepWord::Turn(_) | StepWord::Write => false,
    }
}

/// How many of the steps end the session with a crash.
fn crashes(steps: &[StepWord]) -> usize
    ensures { result ≡ crashes steps.now }
{
    steps.iter().filter(|step| is_crash(**step)).count()
}

/// Adds the step of a word.
fn take_step(steps: &mut Steps, word: &[u8]) -> Result<(), LineError>
    ensures { GivesSteps result steps.new (take_step word.now (Ok steps.old)) }
{
    let Some(step) = step_of(word) else {
        return Err(LineError::Bad(Why::Step));
    };
    steps.push(step)?;
    Ok(())
}

/// Adds the steps of the words.
fn take_steps(steps: &mut Steps, words: &[&[u8]]) -> Result<(), LineError>
    ensures { GivesSteps result steps.new (take_steps (Ok steps.old) (map (λ w. w.now) words.now)) }
{
    for word in words {
        if let Err(error) = take_step(steps, word) {
            return Err(error);
        }
    }
    Ok(())
}
