// How a client's words are made, and what holds at their end.
ghost use Rattle.std.specs.Prelude.{◌≡◌, ℕ, [], replicate, Contains, IfOk};
ghost use Rattle.cq_flying.specs.Ends.{words_id, own_end_id, look_end_id, dropped_at, seen_at, names};

use super::{ClientWords, LookEnd, OwnEnd};
use crate::view::{Roles, Settles};
use atomic_table::Table;
use std::alloc::{AllocError, Global};

/// New words and their two ends.
pub struct MadeClient {
    pub words: ClientWords,
    pub own_end: OwnEnd,
    pub look_end: LookEnd,
}

/// Nothing is written into any word.
fn none_written() -> [u64; 64]
    ensures { result ≡ replicate 64 0 }
{
    [0; 64]
}

impl ClientWords {
    /// Words of which none is open.
    pub fn new(alloc: Global) -> Result<MadeClient, AllocError>
        ensures ends { IfOk result
            (λ m. (own_end_id m.own_end ≡ words_id m.words) × (look_end_id m.look_end ≡ words_id m.words)) }
        ensures fresh { IfOk result
            (λ m. (dropped_at m.own_end ≡ []) × (seen_at m.look_end ≡ []) × (names m.look_end ≡ replicate 64 0)) }
    {
        let (table, mut seat) = Table::of_words(alloc, &[0; 64], &())?;
        let other = table.shared.split_seat::<Roles>(&mut seat);
        Ok(MadeClient {
            words: ClientWords { table },
            own_end: OwnEnd { seat },
            look_end: LookEnd {
                seat: other,
                names: none_written(),
            },
        })
    }

    /// Joins the two ends. Each delivery that was seen dropped is one that was dropped.
    pub fn close(self, own_end: OwnEnd, look_end: LookEnd)
        requires { (own_end_id own_end ≡ words_id self) × (look_end_id look_end ≡ words_id self) }
        ensures { (d : ℕ) → Contains (seen_at look_end) d → Contains (dropped_at own_end) d }
    {
        let OwnEnd { mut seat } = own_end;
        let LookEnd {
            seat: other,
            names: _,
        } = look_end;
        self.table.shared.join_seat::<Roles>(&mut seat, other);
        self.table.shared.load::<Settles>(&mut seat, 0);
    }
}
