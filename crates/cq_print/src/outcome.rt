// What a top call hands back.
use cq_io::Status;
use cq_journal::Session;

/// How a top call ended, the sessions that it served, in order, and the scratch disk.
#[derive(Debug, Drop)]
pub struct Outcome<C> {
    pub status: Status,
    pub sessions: Vec<Session>,
    pub scratch: C,
}
