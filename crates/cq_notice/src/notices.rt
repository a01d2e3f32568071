// The boxes of all clients.
ghost use Rattle.std.specs.Prelude.{◌≤◌, vec_len};

use crate::notice::Notice;

mod calls;

/// A place for each client, with its box where it has one. A box that failed is silent: it is told no more, and is kept
/// until its client ends.
#[derive(Drop)]
pub struct Boxes<B> {
    places: Vec<Option<B>>,
    silent: [bool; 64],
    ghost few: { vec_len places ≤ 64 },
}

/// The boxes of all clients, as their callers made them.
pub type Notices = Boxes<Box<dyn Notice + Send>>;
