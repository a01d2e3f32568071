// The numbers that a script may set.
ghost use Rattle.std.specs.Prelude.{◌≡◌, map};

use crate::Why;
use crate::requests::number_on;

/// The numbers that lines have set.
#[derive(Clone, Copy, Debug, PartialEq, Eq)]
pub struct Settings {
    pub clients: Option<u32>,
    pub queues: Option<u32>,
    pub segment: Option<u32>,
    pub threshold: Option<u32>,
    pub limit: Option<u32>,
}

ghost use Rattle.cq_grammar.specs.Grammar.{no_settings, clients_in, queues_in, segment_in, threshold_in, limit_in, number_within, setting_of, take_clients, take_queues, take_segment, take_threshold, take_limit, setting_line};

/// A number in its range.
pub fn number_within(low: u32, high: u32, number: u64) -> Result<u32, Why>
    ensures { result ≡ number_within low high number }
{
    if low as u64 <= number && number <= high as u64 {
        Ok(number as u32)
    } else {
        Err(Why::Number)
    }
}

/// The number of a setting: once, before all clients and schedules, and in its range.
fn setting_of(
    late: bool,
    given: Option<u32>,
    low: u32,
    high: u32,
    rest: &[&[u8]],
) -> Result<u32, Why>
    ensures { result ≡ setting_of late given low high (map (λ w. w.now) rest.now) }
{
    let [number] = rest else {
        return Err(Why::Word);
    };
    if late || given.is_some() {
        return Err(Why::Order);
    }
    number_within(low, high, number_on(number)?)
}

impl Settings {
    /// No line has set a number.
    pub fn new() -> Settings
        ensures { result ≡ no_settings }
    {
        Settings {
            clients: None,
            queues: None,
            segment: None,
            threshold: None,
            limit: None,
        }
    }

    /// How many clients there are.
    pub fn clients(&self) -> u32
        ensures { result ≡ clients_in self.now }
    {
        self.clients.unwrap_or(1)
    }

    /// How many queues there are.
    pub fn queues(&self) -> u32
        ensures { result ≡ queues_in self.now }
    {
        self.queues.unwrap_or(1)
    }

    /// How many entries a segment of an index has.
    pub fn segment(&self) -> u32
        ensures { result ≡ segment_in self.now }
    {
        self.segment.unwrap_or(4096)
    }

    /// A shorter body is small.
    pub fn threshold(&self) -> u32
        ensures { result ≡ threshold_in self.now }
    {
        self.threshold.unwrap_or(4096)
    }

    /// How long the content of a shared file may grow.
    pub fn limit(&self) -> u32
        ensures { result ≡ limit_in self.now }
    {
        self.limit.unwrap_or(16_777_216)
    }

    /// The line that says how many clients there are.
    fn take_clients(self, late: bool, rest: &[&[u8]]) -> Result<Settings, Why>
        ensures { result ≡ take_clients late self (map (λ w. w.now) rest.now) }
    {
        let clients = setting_of(late, self.clients, 1, 64, rest)?;
        Ok(Settings {
            clients: Some(clients),
            ..self
        })
    }

    /// The line that says how many queues there are.
    fn take_queues(self, late: bool, rest: &[&[u8]]) -> Result<Settings, Why>
        ensures { result ≡ take_queues late self (map (λ w. w.now) rest.now) }
    {
        let queues = setting_of(late, self.queues, 1, 256, rest)?;
        Ok(Settings {
            queues: Some(queues),
            ..self
        })
    }

    /// The line that says how many entries a segment of an index has.
    fn take_segment(self, late: bool, rest: &[&[u8]]) -> Result<Settings, Why>
        ensures { result ≡ take_segment late self (map (λ w. w.now) rest.now) }
    {
        let segment = setting_of(late, self.segment, 16, 4096, rest)?;
        Ok(Settings {
            segment: Some(segment),
            ..self
        })
    }

    /// The line that says from which length on a body is large.
    fn take_threshold(self, late: bool, rest: &[&[u8]]) -> Result<Settings, Why>
        ensures { result ≡ take_threshold late self (map (λ w. w.now) rest.now) }
    {
        let threshold = setting_of(late, self.threshold, 1, 65_536, rest)?;
        Ok(Settings {
            threshold: Some(threshold),
            ..self
        })
    }

    /// The line that says how long the content of a shared file may grow.
    fn take_limit(self, late: bool, rest: &[&[u8]]) -> Result<Settings, Why>
        ensures { result ≡ take_limit late self (map (λ w. w.now) rest.now) }
    {
        let limit = setting_of(late, self.limit, 4096, 16_777_216, rest)?;
        Ok(Settings {
            limit: Some(limit),
            ..self
        })
    }

    /// What a line makes of the settings. `None` where its first word names none.
    pub fn take_line(
        self,
        late: bool,
        first: &[u8],
        rest: &[&[u8]],
    ) -> Option<Result<Settings, Why>>
        ensures { result ≡ setting_line late self first.now (map (λ w. w.now) rest.now) }
    {
        if first == b"clients".as_slice() {
            Some(self.take_clients(late, rest))
        } else if first == b"queues".as_slice() {
            Some(self.take_queues(late, rest))
        } else if first == b"segment".as_slice() {
            Some(self.take_segment(late, rest))
        } else if first == b"threshold".as_slice() {
            Some(self.take_threshold(late, rest))
        } else if first == b"file".as_slice() {
            Some(self.take_limit(late, rest))
        } else {
            None
        }
    }
}
