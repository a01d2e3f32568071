// Rising numbers, of which each is found by a binary search.
ghost use Rattle.std.specs.Prelude.{◌≡◌, ◌<◌, ◌≤◌, ◌+◌, length};
ghost use Rattle.std.specs.VecDeque.{deque_capacity};
ghost use Rattle.std.specs.List.{insert};
ghost use Rattle.cq_queue.specs.Ascending.{Ascend, IsPlace, put_in, removed};

use std::collections::VecDeque;

/// Puts a number in its place among these. It takes no memory.
pub(crate) fn put(numbers: &mut VecDeque<u64>, number: u64)
    requires rise { Ascend numbers.old.items }
    requires room { length numbers.old.items < deque_capacity numbers.old }
    ensures items { numbers.new.items ≡ put_in number numbers.old.items }
    ensures capacity { deque_capacity numbers.old ≤ deque_capacity numbers.new }
{
    let place = place_of(numbers, number);
    put_at(numbers, place, number);
}

/// How many of these are below a number.
fn place_of(numbers: &VecDeque<u64>, number: u64) -> usize
    requires { Ascend numbers.now.items }
    ensures { IsPlace number numbers.now.items result }
{
    match numbers.binary_search(&number) {
        Ok(place) => place,
        Err(place) => place,
    }
}

/// Puts a number at a place among these. It takes no memory.
fn put_at(numbers: &mut VecDeque<u64>, place: usize, number: u64)
    requires within { place ≤ length numbers.old.items }
    requires room { length numbers.old.items < deque_capacity numbers.old }
    ensures items { numbers.new.items ≡ insert numbers.old.items place number }
    ensures capacity { deque_capacity numbers.old ≤ deque_capacity numbers.new }
{
    match numbers.insert(place, number) {
        Ok(()) => {}
        Err(_) => {}
    }
}

/// Takes a number out of these, if it is one of them.
pub(crate) fn take_out(numbers: &mut VecDeque<u64>, number: u64)
    requires { Ascend numbers.old.items }
    ensures items { numbers.new.items ≡ removed number numbers.old.items }
    ensures capacity { deque_capacity numbers.new ≡ deque_capacity numbers.old }
{
    if let Ok(place) = numbers.binary_search(&number) {
        numbers.remove(place);
    }
}
