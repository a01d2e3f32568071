// The words of all clients, and their ends.
use crate::client::{ClientWords, LookEnd, OwnEnd};

mod end;
mod make;
mod steps;

pub use end::close_words;

/// 64 words for each client.
#[derive(Drop)]
pub struct Words {
    clients: Vec<ClientWords>,
}

/// The end of one client, who drops deliveries.
#[derive(Drop)]
pub struct Owner {
    client: u32,
    end: OwnEnd,
}

/// The ends at which words are opened, looked at and closed.
#[derive(Drop)]
pub struct WordSeats {
    ends: Vec<LookEnd>,
}

/// New words, the owners in the clients' order, and the node's ends.
#[derive(Drop)]
pub struct MadeWords {
    pub words: Words,
    pub owners: Vec<Owner>,
    pub looker: WordSeats,
}
