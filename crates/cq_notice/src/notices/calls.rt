// What is done with the boxes of all clients.
ghost use Rattle.std.specs.Prelude.{◌≡◌, ◌≤◌, None, false, vec_len, map, slice_set};
ghost use Rattle.cq_notice.specs.Shown.{shown, shown_at, told_one, Tells};

use super::Boxes;
use crate::notice::Notice;

/// Tells the box of a place, where one is there, and answers whether it failed.
fn tell_one<B: Notice>(place: &mut Option<B>, session: u32, number: u64) -> bool
    ensures { shown_at B.told B.faults place.new result
        ≡ told_one session number result (shown_at B.told B.faults place.old false) }
{
    match place {
        None => false,
        Some(notice) => notice.confirmed(session, number).is_err(),
    }
}

/// Drops the box of a place.
fn empty<B: Notice>(place: &mut Option<B>)
    ensures { place.new ≡ None }
{
    *place = None;
}

impl<B: Notice> Boxes<B> {
    /// The boxes of at most 64 clients, in the clients' order. None is silent. It takes no memory.
    pub fn new(list: Vec<Option<B>>) -> Boxes<B>
        requires { vec_len list ≤ 64 }
        ensures { shown B.told B.faults result ≡ map (λ place. shown_at B.told B.faults place false) list.items }
    {
        Boxes {
            places: list,
            silent: [false; 64],
        }
    }

    /// Tells a client's box a number, where it has one that isn't silent. A box that fails is silent from then on.
    pub fn tell(&mut self, client: u32, session: u32, number: u64)
        ensures { Tells client session number (shown B.told B.faults self.old) (shown B.told B.faults self.new) }
    {
        let at = client as usize;
        if at >= self.places.len() || self.silent[at] {
            return;
        }
        self.silent[at] = tell_one(&mut self.places[at], session, number);
    }

    /// Drops a client's box, a silent one too.
    pub fn end_client(&mut self, client: u32)
        ensures { shown B.told B.faults self.new ≡ slice_set (shown B.told B.faults self.old) client None }
    {
        let at = client as usize;
        if at < self.places.len() {
            empty(&mut self.places[at]);
        }
    }
}
