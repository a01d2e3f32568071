//! Which records of shared files clients are reading, so that no file is cut under a reader.
#![tactic(auto)]

ghost use Rattle.std.specs.Prelude.{◌≡◌, ◌<◌, ◌≤◌, ◌^◌, length, replicate, slice_index_or, slice_set, slice_get, None, Some, IfOk, IfSome, position};
ghost use Rattle.std.specs.List.{list_any};
ghost use Rattle.cq_marks.specs.Marks.{reads, reads_past, end_in, greatest_end, IsInRange};

use cq_table::Place;
use std::alloc::{AllocError, Global};
use std::marker::Model;

/// A record that a client reads.
#[derive(Clone, Copy, Debug, PartialEq, Eq)]
pub struct Marked {
    /// The message's id.
    pub id: u128,
    /// Where its record stood when the client was marked.
    pub place: Place,
}

/// Whether a client reads this message.
fn reads(mark: &Option<Marked>, id: u128) -> bool
    ensures { result ≡ reads id mark.now }
{
    match mark {
        Some(marked) => marked.id == id,
        None => false,
    }
}

/// Whether a client reads a record of this file that ends past a place.
fn reads_past(mark: &Option<Marked>, file: u64, end: u64) -> bool
    ensures { result ≡ reads_past file end mark.now }
{
    match mark {
        Some(Marked { place, .. }) => {
            place.file == file
                && u128::from(end) < u128::from(place.at) + u128::from(place.len) + 25
        }
        None => false,
    }
}

/// The first client that reads a record of this file which ends past a place.
fn first_past(clients: &[Option<Marked>], file: u64, end: u64) -> Option<usize>
    ensures first { result ≡ position (reads_past file end) clients.now }
    ensures within { IfSome result (λ i. i < length clients.now) }
{
    clients.iter().position(|mark| reads_past(mark, file, end))
}

/// The end of the record that a client reads in a file, 128 where it reads none there.
fn end_in(mark: &Option<Marked>, file: u64) -> u64
    requires { IsInRange mark.now }
    ensures end { result ≡ end_in file mark.now }
    ensures small { result < 2 ^ 63 }
{
    match mark {
        Some(Marked { place, .. }) if place.file == file => { place.at + u64::from(place.len) + 25 }
        _ => 128,
    }
}

/// For each client the record that it reads. A contract sees the list of these, by client.
#[derive(Drop)]
pub struct Marks {
    clients: Vec<Option<Marked>>,
}

impl Model for Marks {
    ghost use Rattle.std.specs.Prelude.{List, Option};
    ghost use Rattle.cq_marks.specs.declared.Marked.{Marked as SeenMarked};
    ghost use Rattle.cq_marks.specs.Marks.{AreMarks};

    ghost Value = { List (Option SeenMarked) };

    ghost view = { λ m. m.clients.items };

    ghost invariant = { λ m. AreMarks m.clients.items };
}

impl Marks {
    /// Marks of so many clients, from 1 to 64, none of which reads. It takes all the memory that they need.
    pub fn new(alloc: Global, clients: u32) -> Result<Marks, AllocError>
        requires some { 0 < clients }
        requires few { clients ≤ 64 }
        ensures { IfOk result (λ marks. marks ≡ replicate clients None) }
    {
        let mut list = Vec::new(alloc);
        for _ in 0..clients {
            list.push(None)?;
        }
        Ok(Marks { clients: list })
    }

    /// Marks a client as a reader of a record.
    pub fn mark(&mut self, client: u32, id: u128, place: Place)
        requires client { slice_get self.old client ≡ Some None }
        requires at { place.at ≤ 2 ^ 62 }
        requires len { place.len ≤ 1048576 }
        ensures { self.new ≡ slice_set self.old client (Some (record { id = id; place = place })) }
    {
        self.clients[client as usize] = Some(Marked { id, place });
    }

    /// The client reads no record from now on.
    pub fn clear(&mut self, client: u32)
        requires { client < length self.old }
        ensures { self.new ≡ slice_set self.old client None }
    {
        self.clients[client as usize] = None;
    }

    /// The record that a client reads. `None` exactly where it reads none.
    pub fn marked(&self, client: u32) -> Option<Marked>
        requires { client < length self.now }
        ensures { slice_get self.now client ≡ Some result }
    {
        self.clients[client as usize]
    }

    /// Whether some client reads this message.
    pub fn located(&self, id: u128) -> bool
        ensures { result ≡ list_any (reads id) self.now }
    {
        self.clients.iter().any(|mark| reads(mark, id))
    }

    /// The lowest client that reads a record of a file which ends past a place. `None` exactly where there is none.
    pub fn reader_past(&self, file: u64, end: u64) -> Option<u32>
        ensures { result ≡ position (reads_past file end) self.now }
    {
        match first_past(&self.clients, file, end) {
            Some(client) => Some(client as u32),
            None => None,
        }
    }

    /// The greatest end of the records of a file that clients read, 128 where they read none there.
    pub fn lowest_cut(&self, file: u64) -> u64
        ensures { result ≡ greatest_end file self.now }
    {
        let mut cut: u64 = 128;
        for mark in &self.clients {
            cut = cut.max(end_in(mark, file));
        }
        cut
    }
}

#[cfg(test)]
mod tests;
