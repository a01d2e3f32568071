// The segments of one queue.
ghost use Rattle.std.specs.Prelude.{◌≡◌, ◌≤◌, ◌+◌, ◌++◌, ◌∷◌, ◌^◌, [], length, IfOk, IfSome, IfNone, OnOk, OnErr, IsErr, Option, take, drop};
ghost use Rattle.std.specs.VecDeque.{deque_capacity};
ghost use Rattle.cq_disk.specs.declared.name.Name.{Name};
ghost use Rattle.cq_disk.specs.File.{File};
ghost use Rattle.cq_disk.specs.Run.{Ran};
ghost use Rattle.cq_queue.specs.declared.segment.QueueSegment.{QueueSegment as TheSegment};
ghost use Rattle.cq_queue.specs.QueueSegment.{CanCommit, Commits, HasCommitted, HasLost, IsNew, IsSame, LosesOnly, RemovesOnly, commit_calls, removal_calls, reserved_of};
ghost use Rattle.cq_queue.specs.Lists.{AreAt, AreBelow, AreSame, AreSegments, AreSegments-prop, StandsAt, empty_numbers, first_over, place_in};

use crate::QueueSegment;
use crate::numbers::{put, take_out};
use cq_disk::{Disk, Fault};
use cq_entry::Entry;
use cq_small::SmallBatch;
use std::alloc::{AllocError, Global};
use std::collections::VecDeque;

/// The segments of one queue, rising by number.
///
/// After a fault the value is given up, and the files are opened again.
#[derive(Drop)]
pub struct Segments {
    pub(crate) queue: u32,
    /// How many entries a segment gets at most.
    pub(crate) most: u32,
    /// Nearly all removals are near the front, since a queue's entries go about in the order in which they came; one in
    /// the middle moves the segments of the shorter side.
    pub(crate) list: VecDeque<QueueSegment>,
    /// The numbers of the segments without a present entry, rising, with room for that of each segment.
    pub(crate) empty: VecDeque<u64>,

    ghost empty_are: { empty.items ≡ empty_numbers list.items },
    ghost room: { length list.items ≤ deque_capacity empty },
    ghost are: { AreSegments queue list.items } by { AreSegments-prop queue list.items },
}

impl Segments {
    ghost use Rattle.cq_queue.specs.Calls.{CanFollow, CanLoseAt, CanRemove, HasLast, HasLess, HasOther, HasRoom, IsTaken, SameQueue, list_of, most_of, queue_of};

    /// No segment of a queue whose segments get this many entries at most.
    pub fn new(alloc: Global, queue: u32, most: u32) -> Segments
        ensures queue { queue_of result ≡ queue }
        ensures most { most_of result ≡ most }
        ensures none { list_of result ≡ [] }
    {
        Segments {
            queue,
            most,
            list: VecDeque::new(alloc),
            empty: VecDeque::new(alloc),
        }
    }

    /// These segments of a queue, which rise by number.
    pub(crate) fn of(
        alloc: Global,
        queue: u32,
        most: u32,
        list: VecDeque<QueueSegment>,
    ) -> Result<Segments, AllocError>
        requires { AreSegments queue list.items }
        ensures queue { IfOk result (λ segments. queue_of segments ≡ queue) }
        ensures most { IfOk result (λ segments. most_of segments ≡ most) }
        ensures list { IfOk result (λ segments. list_of segments ≡ list.items) }
    {
        let mut empty = VecDeque::with_capacity(alloc, list.len())?;
        for index in 0..list.len() {
            list[index].list_empty(&mut empty);
        }
        Ok(Segments {
            queue,
            most,
            list,
            empty,
        })
    }

    /// The place of the lowest finished segment. `None` exactly where none is finished.
    pub fn finished(&self) -> Option<usize>
        ensures first { result ≡ first_over (most_of self.now) (list_of self.now) }
        ensures over { IfSome result (CanRemove self.now) }
    {
        let lowest = self.empty.front()?;
        let index = self.place_of(*lowest)?;
        if self.list[index].is_over(index + 1 < self.list.len(), self.most) {
            Some(index)
        } else {
            None
        }
    }

    /// The place of the segment with this number. `None` exactly where no segment has it.
    pub fn place_of(&self, number: u64) -> Option<usize>
        ensures { result ≡ place_in number (list_of self.now) }
    {
        self.list
            .binary_search_by_key(&number, |segment| segment.number)
            .ok()
    }

    /// Takes out the segment that the next entries join, with the memory for so many: the last one, if it has fewer than
    /// a segment gets, else a new one under the next number. Where there is no memory, nothing changes but what was
    /// reserved. It makes no call of a disk.
    pub fn take(&mut self, alloc: Global, count: usize) -> Result<QueueSegment, AllocError>
        requires numbers { AreBelow (2 ^ 63) (list_of self.old) }
        ensures same { SameQueue self.old self.new }
        ensures taken { IfOk result (IsTaken self.old self.new count) }
        // It knows its files, as the others do.
        ensures at { IfOk result (λ segment. (files : Name → Option File)
            → AreAt (queue_of self.old) (list_of self.old) files
            → AreAt (queue_of self.old) (list_of self.new ++ segment ∷ []) files) }
        ensures err { OnErr result (AreSame (list_of self.old) (list_of self.new)) }
    {
        match self.pop() {
            Some(last) => {
                if last.has_room(self.most) {
                    self.take_last(last, count)
                } else {
                    let number = last.number + 1;
                    self.push(last);
                    self.take_new(alloc, number, count)
                }
            }
            None => self.take_new(alloc, 0, count),
        }
    }

    /// A new segment of this number, with the memory for so many entries and for its place behind the others.
    fn take_new(
        &mut self,
        alloc: Global,
        number: u64,
        count: usize,
    ) -> Result<QueueSegment, AllocError>
        requires { AreBelow number (list_of self.old) }
        ensures same { SameQueue self.old self.new }
        ensures list { list_of self.new ≡ list_of self.old }
        ensures new { IfOk result (IsNew (queue_of self.old) number) }
        ensures reserved { IfOk result (λ segment. count ≤ reserved_of segment) }
        ensures follows { IfOk result (CanFollow self.new) }
    {
        self.reserve_one()?;
        QueueSegment::with_room(alloc, self.queue, number, count)
    }

    /// Reserves memory for one more segment.
    fn reserve_one(&mut self) -> Result<(), AllocError>
        ensures same { SameQueue self.old self.new }
        ensures list { list_of self.new ≡ list_of self.old }
        ensures room { OnOk result (HasRoom self.new) }
    {
        self.list.reserve(1)?;
        self.empty.reserve(self.list.len() + 1 - self.empty.len())
    }

    /// Takes out the last segment. `None` exactly where there is none.
    fn pop(&mut self) -> Option<QueueSegment>
        ensures same { SameQueue self.old self.new }
        ensures last { IfSome result (λ last. list_of self.old ≡ list_of self.new ++ last ∷ []) }
        ensures follows { IfSome result (CanFollow self.new) }
        ensures none { IfNone result ((list_of self.old ≡ []) × (list_of self.new ≡ [])) }
    {
        let last = self.list.pop_back()?;
        take_out(&mut self.empty, last.number);
        Some(last)
    }

    /// Puts a segment behind the others.
    fn push(&mut self, segment: QueueSegment)
        requires { CanFollow self.old segment }
        ensures same { SameQueue self.old self.new }
        ensures list { list_of self.new ≡ list_of self.old ++ segment ∷ [] }
    {
        segment.list_empty(&mut self.empty);
        self.list.push_back_reserved(segment);
    }

    /// Reserves memory in a segment that was the last one; without it, the segment is put back.
    fn take_last(&mut self, last: QueueSegment, count: usize) -> Result<QueueSegment, AllocError>
        requires follows { CanFollow self.old last }
        ensures same { SameQueue self.old self.new }
        ensures ok { OnOk result (self.new ≡ self.old) }
        ensures segment { IfOk result (IsSame last) }
        ensures reserved { IfOk result (λ segment. count ≤ reserved_of segment) }
        ensures err { OnErr result (AreSame (list_of self.old ++ last ∷ []) (list_of self.new)) }
    {
        let mut last = last;
        match last.reserve(count) {
            Ok(()) => Ok(last),
            Err(error) => {
                self.push(last);
                Err(error)
            }
        }
    }

    /// Adds the records and entries of messages to this segment, which was taken out, and puts it behind the others. It
    /// takes no memory.
    pub fn add<D: Disk>(
        &mut self,
        disk: &mut D,
        segment: QueueSegment,
        records: &SmallBatch,
        entries: &[Entry],
    ) -> Result<(), Fault>
        requires follows { CanFollow self.old segment }
        requires batch { CanCommit segment records.now entries.now }
        requires at { D.tells → AreAt (queue_of self.old) (list_of self.old ++ segment ∷ []) (D.files disk.old) }
        ensures same { SameQueue self.old self.new }
        ensures shown { OnOk result
            (HasLast self.old self.new segment (length entries.now) (length records.now)) }
        ensures err { OnErr result (list_of self.new ≡ list_of self.old) }
        ensures at { OnOk result (D.tells → AreAt (queue_of self.old) (list_of self.new) (D.files disk.new)) }
        ensures ok { OnOk result
            (D.tells → HasCommitted D.Disk segment disk.old disk.new records.now entries.now) }
        ensures touches { D.tells → Commits D.Disk segment disk.old disk.new records.now entries.now }
        ensures ran { Ran D.Disk disk.old disk.new (IsErr result) }
        ensures calls { OnOk result (D.moment disk.new ≡ D.moment disk.old + commit_calls segment records.now) }
    {
        let mut segment = segment;
        segment.commit(disk, records, entries)?;
        self.push(segment);
        Ok(())
    }

    /// Marks some present entries of the segment at this place, at rising places in it, as gone, and syncs. It takes no
    /// memory.
    pub fn gone<D: Disk>(&mut self, disk: &mut D, index: usize, at: &[u32]) -> Result<(), Fault>
        requires entries { CanLoseAt self.old index at.now }
        requires at { D.tells → AreAt (queue_of self.old) (list_of self.old) (D.files disk.old) }
        ensures same { SameQueue self.old self.new }
        ensures list { (p : TheSegment) → StandsAt (list_of self.old) index p → HasOther self.old self.new index p }
        ensures shown { OnOk result
            ((p : TheSegment) → StandsAt (list_of self.old) index p → HasLess self.old self.new index at.now p) }
        ensures at { OnOk result (D.tells → AreAt (queue_of self.old) (list_of self.new) (D.files disk.new)) }
        ensures ok { OnOk result (D.tells
            → (p : TheSegment) → StandsAt (list_of self.old) index p → HasLost D.Disk p disk.old disk.new at.now) }
        ensures touches { D.tells
            → (p : TheSegment) → StandsAt (list_of self.old) index p → LosesOnly D.Disk p disk.old disk.new at.now }
        ensures ran { Ran D.Disk disk.old disk.new (IsErr result) }
        ensures calls { OnOk result (D.moment disk.new ≡ D.moment disk.old + (length at.now + 1)) }
    {
        let segment = &mut self.list[index];
        let result = segment.gone(disk, at);
        segment.list_empty(&mut self.empty);
        result
    }

    /// Removes the files of the segment at this place, which has no present entry, index first, and the segment. It takes
    /// no memory.
    pub fn remove<D: Disk>(&mut self, disk: &mut D, index: usize) -> Result<(), Fault>
        requires over { CanRemove self.old index }
        requires at { D.tells → AreAt (queue_of self.old) (list_of self.old) (D.files disk.old) }
        ensures same { SameQueue self.old self.new }
        ensures shown { list_of self.new ≡ take index (list_of self.old) ++ drop (index + 1) (list_of self.old) }
        ensures at { OnOk result (D.tells → AreAt (queue_of self.old) (list_of self.new) (D.files disk.new)) }
        ensures touches { D.tells
            → (p : TheSegment) → StandsAt (list_of self.old) index p → RemovesOnly D.Disk p disk.old disk.new }
        ensures ran { Ran D.Disk disk.old disk.new (IsErr result) }
        ensures calls { OnOk result ((p : TheSegment) → StandsAt (list_of self.old) index p
            → D.moment disk.new ≡ D.moment disk.old + removal_calls p) }
    {
        match self.list.remove(index) {
            Some(segment) => {
                take_out(&mut self.empty, segment.number);
                segment.remove(disk)
            }
            // No caller gives a place past the last one.
            None => Ok(()),
        }
    }
}
