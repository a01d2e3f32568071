// Empty places are closed up, so that memory follows what stands.
ghost use Rattle.cq_items.specs.Items.{is_out_to, out_for, settled_items, settles, waiting_items, waits};
ghost use Rattle.cq_items.specs.Line.{put_in};
ghost use Rattle.cq_items.specs.Slots.{alive, passes, places};
ghost use Rattle.cq_items.specs.Outs.{find};
ghost use Rattle.cq_items.specs.Queue.{AreOutOnce, FindsOut};
ghost use Rattle.std.specs.Prelude.{length, ◌≡◌, ◌<◌, ◌≤◌, ◌^◌, ◌++◌, ◌∷◌, [], ℕ, true, if◌then◌else◌, is_some, Some};

use crate::heap::Heap;
use crate::line::Line;
use crate::outs::Outs;
use crate::slot::Slot;
use crate::slots::close_up;
use crate::{Holder, Items};
use std::collections::VecDeque;

/// How many places are empty before it is worth while to close them up.
const FEWEST_EMPTY: usize = 64;

/// Notes the place of a message that waits.
fn note_waiting(waiting: &mut Line, slot: &Slot, at: u32)
    requires { passes waits slot.now ≡ true → length waiting.old.items < waiting.old.room }
    ensures items { waiting.new.items ≡ waiting.old.items ++ (if passes waits slot.now then at ∷ [] else []) }
    ensures capacity { waiting.new.room ≡ waiting.old.room }
{
    if let Some(item) = slot.message() {
        match item.holder() {
            Holder::Waiting => waiting.push(at),
            Holder::Out { .. } => {}
            Holder::Gone => {}
        }
    }
}

/// Notes the place of a message that is out.
fn note_out(outs: &mut Outs, slot: &Slot, at: u32)
    requires { (c d : ℕ) → passes (out_for c d) slot.now ≡ true → is_some (find c d outs.old.held) ≡ true }
    ensures places { (x y : ℕ)
        → find x y outs.new.held ≡ (if passes (out_for x y) slot.now then Some at else find x y outs.old.held) }
    ensures len { length outs.new.held ≡ length outs.old.held }
    ensures room { outs.new.room ≡ outs.old.room }
{
    if let Some(item) = slot.message() {
        match item.holder() {
            Holder::Out { client, delivery } => outs.move_to(client, delivery, at),
            Holder::Waiting => {}
            Holder::Gone => {}
        }
    }
}

/// Notes the place of a message that is committed and acknowledged.
fn note_settling(gone: &mut Heap, slot: &Slot, at: u32)
    requires { passes settles slot.now ≡ true → length gone.old.items < gone.old.room }
    ensures items { gone.new.items ≡ (if passes settles slot.now then put_in at gone.old.items else gone.old.items) }
    ensures room { gone.old.room ≤ gone.new.room }
{
    if let Some(item) = slot.message() {
        match item.holder() {
            Holder::Gone => {
                if item.stand().is_some() {
                    gone.put(at);
                }
            }
            Holder::Waiting => {}
            Holder::Out { .. } => {}
        }
    }
}

/// Notes afresh which place waits, is out or is to be settled.
fn renumber(slots: &VecDeque<Slot>, waiting: &mut Line, outs: &mut Outs, gone: &mut Heap)
    requires few { length slots.now.items < 2 ^ 32 }
    requires known { (c d : ℕ) → is_some (find c d outs.old.held) ≡ is_out_to c d (alive slots.now.items) }
    requires once { AreOutOnce (alive slots.now.items) }
    requires waiting_fits { length (waiting_items (alive slots.now.items)) ≤ waiting.old.room }
    requires gone_fits { length (settled_items (alive slots.now.items)) ≤ gone.old.room }
    ensures waiting { waiting.new.items ≡ places waits 0 slots.now.items }
    ensures out { FindsOut slots.now.items outs.new.held }
    ensures gone { gone.new.items ≡ places settles 0 slots.now.items }
    ensures rooms { (waiting.new.room ≡ waiting.old.room) × (outs.new.room ≡ outs.old.room)
        × (length outs.new.held ≡ length outs.old.held) × (gone.old.room ≤ gone.new.room) }
{
    waiting.clear();
    gone.clear();
    for at in 0..slots.len() {
        let slot = &slots[at];
        let place = at as u32;
        note_waiting(waiting, slot, place);
        note_out(outs, slot, place);
        note_settling(gone, slot, place);
    }
}

impl Items {
    /// Closes the empty places up where they are more than half of all, and gives memory back.
    pub(super) fn tidy(&mut self)
        ensures { self.new ≡ self.old }
    {
        if self.empty >= FEWEST_EMPTY && self.empty > self.slots.len() / 2 {
            self.pack();
            self.shrink();
        }
    }

    /// Closes the empty places up.
    fn pack(&mut self)
        ensures { self.new ≡ self.old }
    {
        let undecided = self.slots.len() - self.first;
        let unseen = self.slots.len() - self.unseen;
        close_up(&mut self.slots);
        self.first = self.slots.len() - undecided;
        self.unseen = self.slots.len() - unseen;
        renumber(
            &self.slots,
            &mut self.waiting,
            &mut self.outs,
            &mut self.gone,
        );
        self.empty = 0;
    }

    /// Gives back the memory that what stands and what is reserved don't need.
    fn shrink(&mut self)
        ensures { self.new ≡ self.old }
    {
        let slots = self.slots.capacity().min(self.slots.len() + self.reserved);
        let most = self.waiting.capacity();
        let held = most.min(self.waiting.len() + self.outs.len() + self.reserved);
        let gone = self.gone.capacity().min(self.gone.len() + held);
        self.slots.shrink_to(slots);
        self.waiting.shrink_to(held);
        self.outs.shrink_to(held);
        self.gone.shrink_to(gone);
    }
}
