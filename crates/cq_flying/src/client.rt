// The flying words of one client.
ghost use Rattle.std.specs.Prelude.{◌≡◌, true, [], length};
ghost use Rattle.cq_flying.specs.Rule.{IsOnce};

use crate::view::{View, WordRule};
use atomic_table::{Seat, Table};
use std::alloc::Global;

mod life;
mod look;
mod own;

pub use life::MadeClient;

/// 64 words.
#[derive(Drop)]
pub struct ClientWords {
    table: Table<u8, View, (), WordRule, Global>,
    ghost sized: { table.shared.table_id.words ≡ 64 },
}

/// The end at which deliveries are dropped.
#[derive(Drop)]
pub struct OwnEnd {
    seat: Seat<u8, View>,
    ghost role: { seat.me.0.owns ≡ true },
}

/// The end at which words are opened, looked at and closed. It keeps what it wrote into each word: 0 for none, d + 1
/// for the delivery d.
#[derive(Drop)]
pub struct LookEnd {
    seat: Seat<u8, View>,
    names: [u64; 64],
    ghost kept: { seat.me.0.names ≡ names },
    ghost long: { length seat.me.0.names ≡ 64 },
    ghost once: { IsOnce names },
    ghost role: { seat.me.0.looks ≡ true },
    ghost empty: { seat.me.1 ≡ [] },
}
