// The end of words.
ghost use Rattle.std.specs.Prelude.{◌≡◌};
ghost use Rattle.cq_flying.specs.Words.{word_ids, owner_ids, seat_ids, SeenWereDropped};

use super::{Owner, WordSeats, Words};

/// Joins the ends of all clients. Each delivery that was seen dropped is one that its owner dropped.
pub fn close_words(words: Words, mut owners: Vec<Owner>, seats: WordSeats)
    requires owners { owner_ids owners.items ≡ word_ids words }
    requires seats { seat_ids seats ≡ word_ids words }
    ensures { SeenWereDropped owners.items seats }
{
    let Words { mut clients } = words;
    let WordSeats { mut ends } = seats;
    while let Some(client) = clients.pop() {
        let Some(owner) = owners.pop() else {
            unreachable!()
        };
        let Some(look_end) = ends.pop() else {
            unreachable!()
        };
        let Owner { client: _, end } = owner;
        client.close(end, look_end);
    }
}
