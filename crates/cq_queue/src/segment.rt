// One segment of a queue: its index and its small store.
ghost use Rattle.std.specs.VecDeque.{deque_capacity};
ghost use Rattle.std.specs.Prelude.{◌≡◌, ◌+◌, ◌≤◌, ◌<◌, ◌^◌, length, IfOk, OnOk, IsErr, nat_lt};
ghost use Rattle.std.specs.List.Sorted.{IsStrictlyIncreasing};
ghost use Rattle.cq_disk.specs.Run.{Ran, OnlyReads};
ghost use Rattle.cq_small.specs.Record.{StandsIn};
ghost use Rattle.cq_small.specs.Store.{small_name, name_of as small_file_of};
ghost use Rattle.cq_index.specs.Places.{index_name};
ghost use Rattle.cq_index.specs.Segments.{name_of as index_file_of};

use crate::numbers::put;
use cq_disk::{Disk, Fault};
use cq_index::Segment;
use cq_small::SmallStore;
use std::alloc::{AllocError, Global};
use std::collections::VecDeque;

/// One segment of a queue: its index and its small store, each open on a disk or not made yet.
///
/// After a fault the value is given up, and the files are opened again.
#[derive(Drop)]
pub struct QueueSegment {
    pub(crate) queue: u32,
    pub(crate) number: u64,
    pub(crate) index: Segment,
    pub(crate) small: SmallStore,

    ghost index_named: { index_file_of index ≡ index_name queue number },
    ghost small_named: { small_file_of small ≡ small_name queue number },
}

impl QueueSegment {
    ghost use Rattle.cq_queue.specs.Ascending.{Ascend};
    ghost use Rattle.cq_queue.specs.Lists.{put_empty};
    ghost use Rattle.cq_queue.specs.QueueSegment.{IsNew, IsSame, KnowsFiles, HasWhole, count_of, end_of, is_empty, is_over, number_of, present_of, queue_of, reserved_of, small_in, small_len};

    /// A segment of which no file is there yet. It takes no memory, and makes no call of a disk.
    pub fn vacant(alloc: Global, queue: u32, number: u64) -> QueueSegment
        ensures { IsNew queue number result }
    {
        QueueSegment {
            queue,
            number,
            index: Segment::vacant(alloc, queue, number),
            small: SmallStore::vacant(queue, number),
        }
    }

    /// The same with the memory for so many entries.
    pub(crate) fn with_room(
        alloc: Global,
        queue: u32,
        number: u64,
        count: usize,
    ) -> Result<QueueSegment, AllocError>
        ensures new { IfOk result (IsNew queue number) }
        ensures reserved { IfOk result (λ segment. count ≤ reserved_of segment) }
    {
        let mut segment = QueueSegment::vacant(alloc, queue, number);
        segment.reserve(count)?;
        Ok(segment)
    }

    /// Its number.
    pub fn number(&self) -> u64
        ensures { result ≡ number_of self.now }
    {
        self.number
    }

    /// How many entries it has, at most 4096.
    pub fn count(&self) -> u32
        ensures count { result ≡ count_of self.now }
        ensures few { result ≤ 4096 }
    {
        self.index.count()
    }

    /// The places of its present entries, rising.
    pub fn present(&self) -> &[u32]
        ensures same { result.now ≡ present_of self.now }
        ensures rising { IsStrictlyIncreasing (present_of self.now) }
    {
        self.index.present()
    }

    /// Where the next record will stand in the small store, from the file's first byte.
    pub fn base(&self) -> u64
        ensures end { result ≡ end_of self.now }
        ensures high { result ≤ 2 ^ 62 }
    {
        self.small.end()
    }

    /// Whether it has fewer entries than this.
    pub fn has_room(&self, most: u32) -> bool
        ensures { result ≡ nat_lt (count_of self.now) most }
    {
        self.index.count() < most
    }

    /// Whether none of its entries is present.
    pub(crate) fn is_empty(&self) -> bool
        ensures { result ≡ is_empty (present_of self.now) }
    {
        self.index.present().is_empty()
    }

    /// Puts its number among those of segments without a present entry, if it is one.
    pub(crate) fn list_empty(&self, numbers: &mut VecDeque<u64>)
        requires rise { Ascend numbers.old.items }
        requires room { length numbers.old.items < deque_capacity numbers.old }
        ensures items { numbers.new.items ≡ put_empty self.now numbers.old.items }
        ensures capacity { deque_capacity numbers.old ≤ deque_capacity numbers.new }
    {
        if self.is_empty() {
            put(numbers, self.number);
        }
    }

    /// Whether none of its entries is present, and it got this many or a later one is there.
    pub fn is_over(&self, later: bool, most: u32) -> bool
        ensures { result ≡ is_over later most self.now }
    {
        self.is_empty() && (later || self.index.count() >= most)
    }

    /// Takes the memory for so many more entries. Where there is none, nothing changes but what was reserved.
    pub fn reserve(&mut self, count: usize) -> Result<(), AllocError>
        ensures reserved { OnOk result (count ≤ reserved_of self.new) }
        ensures same { IsSame self.old self.new }
    {
        self.index.reserve(count)
    }

    /// Fills a buffer with the body of the record that stands at a place of the small store, whose length is the buffer's.
    pub fn read<D: Disk>(&mut self, disk: &mut D, place: u64, into: &mut [u8]) -> Result<(), Fault>
        requires range { place + length into.old + 5 ≤ small_len self.old }
        requires knows { D.tells → KnowsFiles self.old (D.files disk.old) }
        requires stands { D.tells → HasWhole (small_in (D.files disk.old) self.old) place (length into.old) }
        ensures body { OnOk result (D.tells → StandsIn (small_in (D.files disk.old) self.old) place into.new) }
        ensures same { self.new ≡ self.old }
        ensures reads { D.tells → OnlyReads D.Disk disk.old disk.new }
        ensures ran { Ran D.Disk disk.old disk.new (IsErr result) }
        ensures calls { OnOk result (D.moment disk.new ≡ D.moment disk.old + 1) }
    {
        self.small.read(disk, place, into)
    }
}
