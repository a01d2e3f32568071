// How far each client's fetch is.
ghost use Rattle.std.specs.Prelude.{◌≡◌, ◌<◌, [], length, replicate, IfOk, OnOk, OnErr};
ghost use Rattle.cq_fetch.specs.declared.fetches.Phase.TheVariants.{Free as free_phase};
ghost use Rattle.cq_fetch.specs.Fetches.{none, fetch_of, phase_of, IsLocated, IsRead, read_of, located, with_fetch};

use cq_table::Place;
use std::alloc::{AllocError, Global};
use std::marker::Model;
use std::mem::replace;

/// How far a client's fetch is.
#[derive(Clone, Copy, Debug, PartialEq, Eq)]
pub enum Phase {
    /// None is under way.
    Free,
    /// The record's place is known, and there is a buffer for its body.
    Located {
        /// The message's id.
        id: u128,
        /// Where its record stood when it was located.
        place: Place,
    },
    /// The body was read.
    Read {
        /// The message's id.
        id: u128,
        /// Where its record stood when it was located.
        place: Place,
    },
}

/// The fetch of a client.
#[derive(Drop)]
struct Fetch {
    phase: Phase,
    buffer: Vec<u8>,
}

impl Model for Fetch {
    ghost use Rattle.cq_fetch.specs.Fetches.{Fetch as SeenFetch};

    ghost Value = { SeenFetch };

    ghost view = { λ f. record { phase = f.phase; buffer = f.buffer.items } };
}

impl Fetch {
    /// A fetch with its buffer.
    fn new(phase: Phase, buffer: Vec<u8>) -> Fetch
        ensures { result ≡ record { phase = phase; buffer = buffer.items } }
    {
        Fetch { phase, buffer }
    }

    /// How far it is.
    fn phase(&self) -> Phase
        ensures { result ≡ self.now.phase }
    {
        self.phase
    }

    /// Its buffer.
    fn into_buffer(self) -> Vec<u8>
        ensures { result.items ≡ self.buffer }
    {
        self.buffer
    }
}

/// The fetch of each client. A contract sees the list of these, by client: how far each is, and the bytes of its buffer.
#[derive(Drop)]
pub struct Fetches {
    alloc: Global,
    clients: Vec<Fetch>,
}

impl Model for Fetches {
    ghost use Rattle.std.specs.Prelude.{List};
    ghost use Rattle.cq_fetch.specs.Fetches.{Fetch as SeenFetch};

    ghost Value = { List SeenFetch };

    ghost view = { λ f. f.clients.items };
}

impl Fetches {
    /// The fetches of so many clients, none of them under way.
    pub fn new(alloc: Global, clients: u32) -> Result<Fetches, AllocError>
        ensures { IfOk result (λ fetches. fetches ≡ replicate clients none) }
    {
        let mut list = Vec::new(alloc);
        for _client in 0..clients {
            list.push(Fetch::new(Phase::Free, Vec::new(alloc)))?;
        }
        Ok(Fetches {
            alloc,
            clients: list,
        })
    }

    /// How far a client's fetch is.
    pub fn phase(&self, client: u32) -> Phase
        requires { client < length self.now }
        ensures { result ≡ phase_of self.now client }
    {
        self.clients[client as usize].phase()
    }

    /// Begins the fetch of a record that was located, and takes a buffer of its body's length. Nothing changes where
    /// memory runs out. No fetch of this client is under way.
    pub fn locate(&mut self, client: u32, id: u128, place: Place) -> Result<(), AllocError>
        requires client { client < length self.old }
        requires free { phase_of self.old client ≡ free_phase }
        ensures ok { OnOk result (self.new ≡ with_fetch self.old client (located id place)) }
        ensures err { OnErr result (self.new ≡ self.old) }
    {
        let buffer = vec![in self.alloc; 0; place.len as usize]?;
        self.clients[client as usize] = Fetch::new(Phase::Located { id, place }, buffer);
        Ok(())
    }

    /// Hands out the buffer of a record that was located. The phase stays.
    pub fn take(&mut self, client: u32) -> Vec<u8>
        requires client { client < length self.old }
        requires located { IsLocated (phase_of self.old client) }
        ensures bytes { result.items ≡ (fetch_of self.old client).buffer }
        ensures rest { self.new
            ≡ with_fetch self.old client (record { phase = phase_of self.old client; buffer = [] }) }
    {
        let left = Fetch::new(self.phase(client), Vec::new(self.alloc));
        replace(&mut self.clients[client as usize], left).into_buffer()
    }

    /// The body of a record that was located was read. What is left of its buffer goes.
    pub fn done(&mut self, client: u32)
        requires client { client < length self.old }
        requires located { IsLocated (phase_of self.old client) }
        ensures { self.new
            ≡ with_fetch self.old client (record { phase = read_of (phase_of self.old client); buffer = [] }) }
    {
        let phase = after(self.phase(client));
        self.clients[client as usize] = Fetch::new(phase, Vec::new(self.alloc));
    }

    /// The fetch of a record whose body was read is over.
    pub fn free(&mut self, client: u32)
        requires client { client < length self.old }
        requires read { IsRead (phase_of self.old client) }
        ensures { self.new ≡ with_fetch self.old client none }
    {
        self.clients[client as usize] = Fetch::new(Phase::Free, Vec::new(self.alloc));
    }
}

/// The phase of a fetch whose body was read.
fn after(phase: Phase) -> Phase
    ensures { result ≡ read_of phase }
{
    match phase {
        Phase::Located { id, place } => Phase::Read { id, place },
        Phase::Free => Phase::Free,
        Phase::Read { id, place } => Phase::Read { id, place },
    }
}
