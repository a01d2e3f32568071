// How words are made.
ghost use Rattle.std.specs.Prelude.{◌≡◌, ℕ, [], length, IfOk, All};
ghost use Rattle.cq_flying.specs.Words.{word_ids, owner_ids, seat_ids, IsOwnerOf, dropped_of, opened_of, seen_of};

use super::{MadeWords, Owner, WordSeats, Words};
use crate::client::{ClientWords, MadeClient};
use std::alloc::{AllocError, Global};

impl Words {
    /// Words for so many clients, of which none is open, with all the memory that they will need.
    pub fn new(alloc: Global, clients: u32) -> Result<MadeWords, AllocError>
        ensures count { IfOk result (λ m. length (word_ids m.words) ≡ clients) }
        ensures ends { IfOk result
            (λ m. (owner_ids m.owners.items ≡ word_ids m.words) × (seat_ids m.looker ≡ word_ids m.words)) }
        ensures owners { IfOk result (λ m. All (IsOwnerOf m.words) m.owners.items) }
        ensures fresh { IfOk result
            (λ m. (c : ℕ)
            → (dropped_of m.owners.items c ≡ []) × (opened_of m.looker c ≡ []) × (seen_of m.looker c ≡ [])) }
    {
        let mut words = Vec::new(alloc);
        let mut owners = Vec::new(alloc);
        let mut ends = Vec::new(alloc);
        for client in 0..clients {
            let made = ClientWords::new(alloc)?;
            let MadeClient {
                words: one,
                own_end,
                look_end,
            } = made;
            words.push(one)?;
            owners.push(Owner {
                client,
                end: own_end,
            })?;
            ends.push(look_end)?;
        }
        Ok(MadeWords {
            words: Words { clients: words },
            owners,
            looker: WordSeats { ends },
        })
    }
}
