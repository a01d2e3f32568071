// What a commit passes and writes, planned before the first call of the disk.
ghost use Rattle.std.specs.Prelude.{◌≡◌, ◌≤◌, ◌<◌, ◌+◌, ◌-◌, ◌*◌, ◌^◌, ℕ, List, [], length, slice_get, IfNone, IfOk, OnOk};
ghost use Rattle.std.specs.List.{AllByRecursion};
ghost use Rattle.std.specs.Option.{option_copied};
ghost use Rattle.std.specs.Ordering.{nat_cmp};
ghost use Rattle.std.specs.BTreeSet.{contains};
ghost use Rattle.cq_entry.specs.Entry.{IsEntry};
ghost use Rattle.cq_items.specs.Items.{skips, undecided_items};
ghost use Rattle.cq_queue.specs.Planning.{CanPassPlan, HasIds, HasKept, HasPlanned, HasRecord, IsEmptyPlan, IsPlan, IsReadBack};
ghost use Rattle.cq_queue.specs.Passing.{IsReady, MaySkip, commit_items};
ghost use Rattle.cq_queue.specs.Tied.{pick_of, room_of};
ghost use Rattle.cq_queue.specs.Calls.{list_of, most_of};

use crate::{QueueSegment, Segments};
use cq_entry::{Entry, EntryKind};
use cq_items::{Holder, Items, Message, Passed, Stand};
use cq_small::SmallBatch;
use std::alloc::{AllocError, Global};
use std::collections::BTreeSet;

/// What a commit passes, and the records and the entries of what it keeps.
#[derive(Drop)]
pub(crate) struct Plan {
    pub(crate) passed: Vec<Passed>,
    pub(crate) records: SmallBatch,
    pub(crate) entries: Vec<Entry>,
    /// For how many more entries there is room.
    pub(crate) room: u32,
    /// Where the next record stands in the small store.
    pub(crate) end: u64,
}

/// Whether a commit skips this message: it was asked to, or nobody needs it any more.
fn is_skipped(item: &Message<'_>, skip: &BTreeSet<u128>) -> bool
    ensures { result ≡ skips (contains nat_cmp skip.now item.now.id) item.now }
{
    skip.contains(&item.id()) || matches!(item.holder(), Holder::Gone)
}

/// The set of these ids, so that each is found without a look at them all.
fn set_of(alloc: Global, ids: &[u128]) -> Result<BTreeSet<u128>, AllocError>
    ensures { IfOk result (HasIds ids.now) }
{
    let mut set = BTreeSet::new(alloc);
    for id in ids {
        set.insert(*id)?;
    }
    Ok(set)
}

/// The entry with these fields, which is read back as itself.
fn entry_of(kind: EntryKind, len: u32, id: u128, place: u64) -> Entry
    requires { IsEntry (record { kind = kind; len = len; id = id; place = place }) }
    ensures same { result ≡ record { kind = kind; len = len; id = id; place = place } }
    ensures present { IsReadBack result }
{
    Entry {
        kind,
        len,
        id,
        place,
    }
}

/// The plan for the undecided messages, with room for so many entries, whose first record stands at this place.
pub(crate) fn plan_of(
    alloc: Global,
    items: &Items,
    skip: &[u128],
    room: u32,
    base: u64,
) -> Result<Plan, AllocError>
    requires ready { AllByRecursion IsReady (undecided_items items.now.items) }
    requires few { room ≤ 4096 }
    requires place { base ≤ 2 ^ 62 }
    ensures { IfOk result (IsPlan skip.now room base (undecided_items items.now.items)) }
{
    let skipped = set_of(alloc, skip)?;
    let mut plan = Plan::new(alloc, room, base);
    while let Some(item) = items.undecided_item(plan.passed.len()) {
        if !plan.add(&item, &skipped)? {
            return Ok(plan);
        }
    }
    Ok(plan)
}

impl Plan {
    /// Nothing, with room for so many entries, whose first record stands at this place.
    fn new(alloc: Global, room: u32, end: u64) -> Plan
        ensures { IsEmptyPlan room end result }
    {
        Plan {
            passed: Vec::new(alloc),
            records: SmallBatch::new(alloc),
            entries: Vec::new(alloc),
            room,
            end,
        }
    }

    /// Plans one message more. False exactly where it is to be kept and there is no room.
    fn add(&mut self, item: &Message<'_>, skipped: &BTreeSet<u128>) -> Result<bool, AllocError>
        requires ready { IsReady item.now }
        requires place { self.old.end ≤ 2 ^ 63 }
        ensures { IfOk result (λ planned. (skip : List ℕ) → HasIds skip skipped.now
            → HasPlanned skip item.now self.old self.new planned) }
    {
        if is_skipped(item, skipped) {
            self.passed.push(Passed {
                id: item.id(),
                kept: false,
            })?;
            return Ok(true);
        }
        if self.room == 0 {
            return Ok(false);
        }
        self.keep(item)?;
        Ok(true)
    }

    /// Plans one message more, which is kept.
    fn keep(&mut self, item: &Message<'_>) -> Result<(), AllocError>
        requires ready { IsReady item.now }
        requires room { 0 < self.old.room }
        requires place { self.old.end ≤ 2 ^ 63 }
        ensures { OnOk result (HasKept item.now self.old self.new) }
    {
        let place = self.add_record(item)?;
        let entry = entry_of(item.kind(), item.len(), item.id(), place);
        self.entries.push(entry)?;
        self.passed.push(Passed {
            id: item.id(),
            kept: true,
        })?;
        self.room -= 1;
        Ok(())
    }

    /// Adds the record of a small message, and answers the place that its entry says: where its record will stand, 0
    /// for a shared one.
    fn add_record(&mut self, item: &Message<'_>) -> Result<u64, AllocError>
        requires ready { IsReady item.now }
        requires place { self.old.end ≤ 2 ^ 63 }
        ensures { IfOk result (HasRecord item.now self.old self.new) }
    {
        if let EntryKind::Shared = item.kind() {
            return Ok(0);
        }
        let Some(body) = item.body() else {
            return Ok(0);
        };
        self.records.push(body.bytes())?;
        let place = self.end;
        self.end += u64::from(item.len()) + 5;
        Ok(place)
    }
}

/// Passes what is planned: what is kept stands behind so many entries of this segment.
pub(crate) fn pass_all(items: &mut Items, plan: &Plan, segment: u64, count: u32)
    requires can { CanPassPlan items.old.items count plan.now }
    ensures { (skip : List ℕ) (room base : ℕ) → MaySkip skip items.old.items
        → IsPlan skip room base (undecided_items items.old.items) plan.now
        → items.new ≡ record items.old { items = commit_items skip room segment count base items.old.items } }
{
    let mut kept: usize = 0;
    for at in 0..plan.passed.len() {
        let passed = &plan.passed[at];
        if passed.kept {
            let entry = &plan.entries[kept];
            let stand = Stand {
                segment,
                at: count + kept as u32,
                place: entry.place,
            };
            items.pass(false, stand);
            kept += 1;
        } else {
            items.pass(
                true,
                Stand {
                    segment,
                    at: 0,
                    place: 0,
                },
            );
        }
    }
}

impl Segments {
    /// The last segment. `None` exactly where there is none.
    fn last(&self) -> Option<&QueueSegment>
        ensures value { option_copied result ≡ slice_get (list_of self.now) (length (list_of self.now) - 1) }
        ensures none { IfNone result (list_of self.now ≡ []) }
    {
        self.list.back()
    }

    /// Where the next record stands: at the end of the last segment, if that has room, else at the start of a new one.
    pub(crate) fn next_base(&self) -> u64
        ensures base { result ≡ (pick_of (most_of self.now) (list_of self.now)).base }
        ensures high { result ≤ 2 ^ 62 }
    {
        let Some(last) = self.last() else {
            return 128;
        };
        if last.has_room(self.most) {
            last.base()
        } else {
            128
        }
    }

    /// For how many entries the segment has room that the next ones join.
    pub(crate) fn next_room(&self) -> u32
        ensures { result ≡ room_of (most_of self.now) (list_of self.now) }
    {
        let Some(last) = self.last() else {
            return self.most;
        };
        if last.has_room(self.most) {
            self.most - last.count()
        } else {
            self.most
        }
    }
}
