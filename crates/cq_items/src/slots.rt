// The places of a queue's messages.
ghost use Rattle.cq_items.specs.Items.{decide};
ghost use Rattle.cq_items.specs.Slots.{handed_to, held_by, slot_at, stand_of};
ghost use Rattle.std.specs.VecDeque.{deque_capacity};
ghost use Rattle.std.specs.Prelude.{◌≡◌, ◌<◌, ◌≤◌, length, filter, slice_set, None, is_some, option_map};

use crate::slot::Slot;
use crate::{Holder, Stand};
use std::collections::VecDeque;

/// Gives the message at a place to another holder.
pub(crate) fn set_holder(slots: &mut VecDeque<Slot>, at: usize, holder: Holder)
    requires { at < length slots.old.items }
    ensures slots { slots.new.items ≡ slice_set slots.old.items at (held_by holder (slot_at slots.old.items at)) }
    ensures capacity { deque_capacity slots.new ≡ deque_capacity slots.old }
{
    slots[at].set_holder(holder);
}

/// Hands the message at a place to this holder.
pub(crate) fn hand_to(slots: &mut VecDeque<Slot>, at: usize, holder: Holder)
    requires { at < length slots.old.items }
    ensures slots { slots.new.items ≡ slice_set slots.old.items at (handed_to holder (slot_at slots.old.items at)) }
    ensures capacity { deque_capacity slots.new ≡ deque_capacity slots.old }
{
    slots[at].hand_to(holder);
}

/// Commits the message at a place, whose entry and record stand there; its body leaves memory.
pub(crate) fn commit(slots: &mut VecDeque<Slot>, at: usize, stand: Stand)
    requires { at < length slots.old.items }
    ensures slots { slots.new.items ≡ slice_set slots.old.items at (option_map (decide stand) (slot_at slots.old.items at)) }
    ensures capacity { deque_capacity slots.new ≡ deque_capacity slots.old }
{
    slots[at].commit(stand);
}

/// Where the entry of the message at a place stands. `None` exactly where there is none that is committed.
pub(crate) fn stand_of(slot: &Slot) -> Option<Stand>
    ensures { result ≡ stand_of slot.now }
{
    match slot.message() {
        Some(item) => item.stand(),
        None => None,
    }
}

/// Drops the message of a place.
pub(crate) fn empty(slots: &mut VecDeque<Slot>, at: usize)
    requires { at < length slots.old.items }
    ensures slots { slots.new.items ≡ slice_set slots.old.items at None }
    ensures capacity { deque_capacity slots.new ≡ deque_capacity slots.old }
{
    slots[at].clear();
}

/// Drops the empty places.
pub(crate) fn close_up(slots: &mut VecDeque<Slot>)
    ensures slots { slots.new.items ≡ filter is_some slots.old.items }
    ensures capacity { deque_capacity slots.new ≡ deque_capacity slots.old }
{
    slots.retain(|slot| !slot.is_empty());
}
