// One line after another, by its words.
ghost use Rattle.std.specs.Prelude.{◌≡◌, map, IfOk};

use crate::Why;
use crate::error::LineError;
use crate::requests::{body_of, number_on, queue_within, queues_of};
use crate::schedule::Schedule;
use crate::settings::{Settings, number_within};
use crate::steps::{Run, client_within, runs_of};
use crate::streams::Asked;
use cq_inbox::Request;
use std::alloc::{AllocError, Global};

/// What the lines so far say.
#[derive(Debug, Drop)]
pub struct Reading {
    pub settings: Settings,
    pub client: Option<u32>,
    pub streams: Asked,
    pub steps: Schedule,
    pub scheduled: Option<u64>,
}

impl Reading {
    ghost use Rattle.cq_grammar.specs.Calls.{Gives};
    ghost use Rattle.cq_grammar.specs.Grammar.{nothing_read, has_begun, take_client, add, publish_by, get_by, ack_by, end_by, client_now, with_schedule, scheduled_by, take_schedule, take_line, take_words};

    /// Before the first line.
    pub fn new(alloc: Global) -> Result<Reading, AllocError>
        ensures { IfOk result (λ reading. reading ≡ nothing_read) }
    {
        Ok(Reading {
            settings: Settings::new(),
            client: None,
            streams: Asked::new(alloc)?,
            steps: Schedule::new(alloc),
            scheduled: None,
        })
    }

    /// Whether a line of a client or of the schedule was read.
    fn has_begun(&self) -> bool
        ensures { result ≡ has_begun self.now }
    {
        self.client.is_some() || self.scheduled.is_some()
    }

    /// `client N`
    fn take_client(&mut self, rest: &[&[u8]]) -> Result<(), LineError>
        ensures { Gives result self.new (take_client self.old (map (λ w. w.now) rest.now)) }
    {
        let [client] = rest else {
            return Err(LineError::Bad(Why::Word));
        };
        let client = client_within(self.settings.clients(), number_on(client)?)?;
        self.client = Some(client);
        Ok(())
    }

    /// Adds a request of a client.
    fn add(&mut self, client: u32, request: Request) -> Result<(), LineError>
        ensures { Gives result self.new (add self.old client request) }
    {
        self.streams.add(client, request)
    }

    /// `publish Q,Q BODY`
    fn take_publish(&mut self, alloc: Global, client: u32, rest: &[&[u8]]) -> Result<(), LineError>
        ensures { Gives result self.new (publish_by self.old client (map (λ w. w.now) rest.now)) }
    {
        let [queues, body @ ..] = rest else {
            return Err(LineError::Bad(Why::Word));
        };
        if body.is_empty() {
            return Err(LineError::Bad(Why::Word));
        }
        let queues = queues_of(alloc, self.settings.queues(), queues)?;
        let body = body_of(alloc, self.settings.threshold(), body)?;
        self.add(client, Request::Publish { queues, body })
    }

    /// `get Q`
    fn take_get(&mut self, client: u32, rest: &[&[u8]]) -> Result<(), LineError>
        ensures { Gives result self.new (get_by self.old client (map (λ w. w.now) rest.now)) }
    {
        let [queue] = rest else {
            return Err(LineError::Bad(Why::Word));
        };
        let queue = queue_within(self.settings.queues(), number_on(queue)?)?;
        self.add(client, Request::Get { queue })
    }

    /// `ack D`
    fn take_ack(&mut self, client: u32, rest: &[&[u8]]) -> Result<(), LineError>
        ensures { Gives result self.new (ack_by self.old client (map (λ w. w.now) rest.now)) }
    {
        let [delivery] = rest else {
            return Err(LineError::Bad(Why::Word));
        };
        let delivery = number_within(0, u32::MAX, number_on(delivery)?)?;
        self.add(client, Request::Ack { delivery })
    }

    /// `end`
    fn take_end(&mut self, client: u32, rest: &[&[u8]]) -> Result<(), LineError>
        ensures { Gives result self.new (end_by self.old client (map (λ w. w.now) rest.now)) }
    {
        if !rest.is_empty() {
            return Err(LineError::Bad(Why::Word));
        }
        self.add(client, Request::End)
    }

    /// The client whose requests follow.
    fn client(&self) -> Result<u32, Why>
        ensures { result ≡ client_now self.now }
    {
        self.client.ok_or(Why::Client)
    }

    /// Adds steps, in the line with this number.
    fn add_steps(&mut self, number: u64, runs: &[Run]) -> Result<(), LineError>
        ensures { Gives result self.new (with_schedule number self.old runs.now) }
    {
        self.steps.extend(runs)?;
        self.scheduled = Some(self.scheduled.unwrap_or(number));
        Ok(())
    }

    /// Takes the words of a schedule, in the line with this number.
    fn schedule(&mut self, alloc: Global, number: u64, words: &[&[u8]]) -> Result<(), LineError>
        ensures { Gives result self.new (scheduled_by number self.old (map (λ w. w.now) words.now)) }
    {
        let runs = runs_of(alloc, self.settings.clients(), words)?;
        self.add_steps(number, &runs)
    }

    /// `schedule S S`
    fn take_schedule(&mut self, alloc: Global, number: u64, rest: &[&[u8]]) -> Result<(), LineError>
        ensures { Gives result self.new (take_schedule number self.old (map (λ w. w.now) rest.now)) }
    {
        if rest.is_empty() {
            return Err(LineError::Bad(Why::Word));
        }
        self.schedule(alloc, number, rest)
    }

    /// Takes a line that isn't of a setting, by its first word.
    fn take_line(
        &mut self,
        alloc: Global,
        number: u64,
        first: &[u8],
        rest: &[&[u8]],
    ) -> Result<(), LineError>
        ensures { Gives result self.new (take_line number self.old first.now (map (λ w. w.now) rest.now)) }
    {
        if first == b"client".as_slice() {
            self.take_client(rest)
        } else if first == b"publish".as_slice() {
            self.take_publish(alloc, self.client()?, rest)
        } else if first == b"get".as_slice() {
            self.take_get(self.client()?, rest)
        } else if first == b"ack".as_slice() {
            self.take_ack(self.client()?, rest)
        } else if first == b"end".as_slice() {
            self.take_end(self.client()?, rest)
        } else if first == b"schedule".as_slice() {
            self.take_schedule(alloc, number, rest)
        } else {
            Err(LineError::Bad(Why::Word))
        }
    }

    /// Takes the words of the line with this number.
    pub fn take_words(
        &mut self,
        alloc: Global,
        number: u64,
        words: &[&[u8]],
    ) -> Result<(), LineError>
        ensures { Gives result self.new (take_words number self.old (map (λ w. w.now) words.now)) }
    {
        let Some((first, rest)) = words.split_first() else {
            return Err(LineError::Bad(Why::Word));
        };
        match self.settings.take_line(self.has_begun(), first, rest) {
            Some(read) => {
                self.settings = read?;
                Ok(())
            }
            None => self.take_line(alloc, number, first, rest),
        }
    }
}
