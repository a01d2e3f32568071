// What a script says, and why one is refused.
ghost use Rattle.std.specs.Prelude.{◌≡◌, ◌++◌, ◌∷◌, [], length, map, replicate, OnOk, OnErr};

use cq_inbox::{Config, Request};
use std::alloc::{AllocError, Global};
use std::marker::Model;

/// A step of a schedule.
#[derive(Clone, Copy, Debug, PartialEq, Eq)]
pub enum StepWord {
    /// The next request of this client is handed in.
    Client(u32),
    /// A turn of this client is served.
    Turn(u32),
    /// A step of the writer.
    Write,
    /// A step of the compactor.
    Shift,
    /// The session ends with a crash that leaves this image.
    Crash { image: u64 },
    /// After so many further device calls the disk fails. This step is made, and then the session ends with a crash that
    /// leaves this image.
    Stop { image: u64, calls: u64, step: Halt },
}

/// A step within which the disk may stop.
#[derive(Clone, Copy, Debug, PartialEq, Eq)]
pub enum Halt {
    /// A turn of this client is served.
    Turn(u32),
    /// A step of the writer.
    Write,
    /// A step of the compactor.
    Shift,
}

/// Why a line is refused.
#[derive(Clone, Copy, Debug, PartialEq, Eq)]
pub enum Why {
    /// Its bytes, its spaces, its first word or the number of its words.
    Word,
    /// A number that is none, or out of its range.
    Number,
    /// A setting after a client or a schedule, or a second time.
    Order,
    /// No client stands before it, or there is no such client.
    Client,
    /// There is no such queue, or one is named twice.
    Queue,
    /// The body is of no known form, too long, or not short enough to be small.
    Body,
    /// A word of a schedule is of no known form.
    Step,
    /// There are too many requests, steps or crashes.
    Many,
    /// The bodies of all requests have too many bytes.
    Large,
    /// The script has too many bytes.
    Long,
    /// There is a schedule where none may be.
    Schedule,
}

/// Why a script wasn't read.
#[derive(Clone, Copy, Debug, PartialEq, Eq)]
pub enum ScriptError {
    /// The first bad line, counted from 1, and why it is bad.
    Bad { line: u64, why: Why },
    /// Memory ran out.
    Memory,
}

/// The steps of a schedule. A contract sees it as their list.
#[derive(Debug, Drop)]
pub struct Steps {
    words: Vec<StepWord>,
}

impl Model for Steps {
    ghost use Rattle.std.specs.Prelude.{List};
    ghost use Rattle.cq_grammar.specs.declared.script.StepWord.{StepWord};

    ghost Value = { List StepWord };

    ghost view = { λ s. s.words.items };
}

impl Steps {
    /// No step.
    pub fn new(alloc: Global) -> Steps
        ensures { result ≡ [] }
    {
        Steps {
            words: Vec::new(alloc),
        }
    }

    /// Adds a step at the end so many times. If memory runs out the steps are unchanged.
    pub fn repeat(&mut self, word: StepWord, times: u32) -> Result<(), AllocError>
        ensures ok { OnOk result (self.new ≡ self.old ++ replicate times word) }
        ensures err { OnErr result (self.new ≡ self.old) }
    {
        let before = self.words.len();
        for _time in 0..times {
            if self.words.push(word).is_err() {
                self.words.truncate(before);
                return Err(AllocError);
            }
        }
        Ok(())
    }

    /// These steps. It takes no memory.
    pub fn from_vec(words: Vec<StepWord>) -> Steps
        ensures { result ≡ words.items }
    {
        Steps { words }
    }

    /// The steps back. It takes no memory.
    pub fn into_vec(self) -> Vec<StepWord>
        ensures { result.items ≡ self }
    {
        self.words
    }

    /// The steps, in their order.
    pub fn words(&self) -> &[StepWord]
        ensures { result.now ≡ self.now }
    {
        &self.words
    }

    /// Adds a step at the end. If memory runs out the steps are unchanged.
    pub fn push(&mut self, word: StepWord) -> Result<(), AllocError>
        ensures ok { OnOk result (self.new ≡ self.old ++ word ∷ []) }
        ensures err { OnErr result (self.new ≡ self.old) }
    {
        self.words.push(word)?;
        Ok(())
    }
}

/// The requests of each client, in the order in which it makes them. A contract sees a list of requests for each
/// client.
#[derive(Debug, Drop)]
pub struct Streams {
    streams: Vec<Vec<Request>>,
}

impl Model for Streams {
    ghost use Rattle.std.specs.Prelude.{List, map};
    ghost use Rattle.cq_inbox.specs.declared.request.Request.{Request};

    ghost Value = { List (List Request) };

    ghost view = { λ s. map (λ v. v.items) s.streams.items };
}

impl Streams {
    /// These streams. It takes no memory.
    pub fn from_vec(streams: Vec<Vec<Request>>) -> Streams
        ensures { result ≡ map (λ v. v.items) streams.items }
    {
        Streams { streams }
    }

    /// The streams back. It takes no memory.
    pub fn into_vec(self) -> Vec<Vec<Request>>
        ensures { map (λ v. v.items) result.items ≡ self }
    {
        self.streams
    }

    /// The streams, by the number of the client.
    pub fn streams(&self) -> &[Vec<Request>]
        ensures { map (λ v. v.items) result.now ≡ self.now }
    {
        &self.streams
    }
}

/// What a script says.
#[derive(Debug, Drop)]
pub struct Script {
    /// The numbers of the node.
    pub config: Config,
    /// The requests of each client.
    pub streams: Streams,
    /// The steps of the schedule.
    pub steps: Steps,
    /// The number of the first schedule line, counted from 1, where there is one.
    pub scheduled: Option<u64>,
}
