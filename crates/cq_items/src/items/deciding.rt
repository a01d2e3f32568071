// The entries that aren't decided yet, and passing the first of them.
ghost use Rattle.cq_items.specs.declared.item.Stand.{Stand};
ghost use Rattle.cq_items.specs.Items.{holder_of, IsHeldBy, IsPassed, is_free, is_gone, MayKeep, MayPass, pass_first, undecided_items};
ghost use Rattle.std.specs.Prelude.{length, map, slice_get, ◌≡◌, true, false, not, ◌||◌, None, Some, IsSome};

use crate::slots::{commit, empty};
use crate::{Holder, Items, Message, Passed, Stand};

impl Items {
    /// How many entries are undecided.
    pub fn undecided_count(&self) -> usize
        ensures { result ≡ length (undecided_items self.now.items) }
    {
        self.slots.len() - self.first
    }

    /// The message of the undecided entry at this place from the front. `None` exactly past the last.
    pub fn undecided_item(&self, at: usize) -> Option<Message<'_>>
        ensures { result ≡ slice_get (undecided_items self.now.items) at }
    {
        if at >= self.slots.len() - self.first {
            return None;
        }
        self.slots[self.first + at].message()
    }

    /// The id of the undecided entry at this place from the front. `None` exactly past the last.
    pub fn undecided(&self, at: usize) -> Option<u128>
        ensures { result ≡ slice_get (map (λ i. i.id) (undecided_items self.now.items)) at }
    {
        match self.undecided_item(at) {
            Some(item) => Some(item.id()),
            None => None,
        }
    }

    /// Who has the undecided message with this id.
    pub fn holder(&self, id: u128) -> Holder
        requires { IsSome (holder_of id (undecided_items self.now.items)) }
        ensures { Some result ≡ holder_of id (undecided_items self.now.items) }
    {
        match self.find_holder(id) {
            Some(holder) => holder,
            None => Holder::Gone,
        }
    }

    /// Who has the undecided message with this id. `None` exactly where there is none.
    fn find_holder(&self, id: u128) -> Option<Holder>
        ensures { result ≡ holder_of id (undecided_items self.now.items) }
    {
        for at in self.first..self.slots.len() {
            if let Some(item) = self.slots[at].message() {
                if item.id() == id {
                    return Some(item.holder());
                }
            }
        }
        None
    }

    /// Passes the first undecided entry, and tells whether it was kept: it leaves the queue where that is asked or its
    /// message is acknowledged, and is committed else, and stands here. One that is out may be asked to leave, one that waits may not.
    pub fn pass(&mut self, skip: bool, stand: Stand) -> Passed
        requires { MayPass skip (undecided_items self.old.items) }
        ensures queue { self.new ≡ record self.old { items = pass_first skip stand self.old.items } }
        ensures passed { IsPassed skip result (undecided_items self.old.items) }
    {
        match self.undecided_item(0) {
            Some(item) => {
                let id = item.id();
                let holder = item.holder();
                let kept = self.pass_held(holder, skip, stand);
                self.tidy();
                Passed { id, kept }
            }
            None => Passed { id: 0, kept: false },
        }
    }

    /// Passes the first undecided entry, whose message this holder has. True exactly where it is kept.
    fn pass_held(&mut self, holder: Holder, skip: bool, stand: Stand) -> bool
        requires held { IsHeldBy holder (undecided_items self.old.items) }
        requires may { skip ≡ true → is_free holder ≡ false }
        ensures queue { self.new ≡ record self.old { items = pass_first skip stand self.old.items } }
        ensures kept { result ≡ not (skip || is_gone holder) }
    {
        match holder {
            Holder::Gone => {
                self.leave_gone();
                false
            }
            Holder::Out { client, delivery } => {
                if skip {
                    self.leave_out(client, delivery);
                } else {
                    self.keep(stand);
                }
                !skip
            }
            Holder::Waiting => {
                self.keep(stand);
                true
            }
        }
    }

    /// The first undecided entry is committed; a small body leaves memory.
    fn keep(&mut self, stand: Stand)
        requires { MayKeep (undecided_items self.old.items) }
        ensures { self.new ≡ record self.old { items = pass_first false stand self.old.items } }
    {
        let at = self.first;
        commit(&mut self.slots, at, stand);
        self.first = at + 1;
    }

    /// The first undecided message, which is acknowledged, leaves the queue.
    fn leave_gone(&mut self)
        requires { IsHeldBy Holder.Gone (undecided_items self.old.items) }
        ensures { (stand : Stand) → self.new ≡ record self.old { items = pass_first true stand self.old.items } }
    {
        let at = self.first;
        empty(&mut self.slots, at);
        self.first = at + 1;
        self.empty = self.empty.saturating_add(1);
    }

    /// The first undecided message, which is out for this delivery, leaves the queue; the delivery is no longer out.
    fn leave_out(&mut self, client: u32, delivery: u32)
        requires { IsHeldBy (Holder.Out client delivery) (undecided_items self.old.items) }
        ensures { (stand : Stand) → self.new ≡ record self.old { items = pass_first true stand self.old.items } }
    {
        match self.outs.take(client, delivery) {
            Some(_) => {
                let at = self.first;
                empty(&mut self.slots, at);
                self.first = at + 1;
                self.empty = self.empty.saturating_add(1);
            }
            None => {}
        }
    }
}
