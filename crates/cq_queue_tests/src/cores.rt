// A queue on the disk in memory, call by call.
ghost use Rattle.std.specs.Prelude.{◌≡◌, ◌<◌, ◌≤◌, None, IfOk, OnOk};
ghost use Rattle.cq_disk.specs.declared.name.Name.{Name};
ghost use Rattle.cq_queue.specs.Values.{IsOnDisk, IsRunning, value_of};
ghost use Rattle.cq_queue_tests.specs.Goes.{GoesOn, IsFit};

use cq_bytes::Body;
use cq_disk::{Disk, Kind, Name};
use cq_entry::EntryKind;
use cq_memdisk::MemDisk;
use cq_queue::{QueueCore, QueueError};
use std::alloc::{AllocError, Global};
use std::test::Fail;

pub(crate) const QUEUE: u32 = 0;

/// How many entries a segment gets at most.
pub(crate) const LENGTH: u32 = 16;

/// The client that gets the messages.
pub(crate) const CLIENT: u32 = 1;

/// The body of each message.
pub(crate) const BODY: [u8; 2] = *b"hi";

/// The name of the queue's file of a kind and a number.
pub(crate) fn name(kind: Kind, number: u64) -> Name {
    Name {
        kind,
        queue: QUEUE,
        number,
    }
}

/// Publishes a small message under this id.
fn publish(core: &mut QueueCore, alloc: Global, id: u128) -> Result<(), AllocError>
    requires { 0 < id }
    ensures { OnOk result (GoesOn (value_of core.old) (value_of core.new)) }
{
    core.reserve()?;
    let body = Body::copy(alloc, &BODY)?;
    core.publish(id, Some(body), 2);
    Ok(())
}

/// Publishes so many small messages, with the ids from 1 on.
fn publish_all(core: &mut QueueCore, alloc: Global, count: u32) -> Result<(), AllocError>
    ensures { OnOk result (GoesOn (value_of core.old) (value_of core.new)) }
{
    for number in 0..count {
        publish(core, alloc, u128::from(number) + 1)?;
    }
    Ok(())
}

/// So many commits.
fn commit_all<D: Disk>(core: &mut QueueCore, disk: &mut D, commits: u32) -> Result<(), QueueError>
    requires fit { IsFit 0 (value_of core.old) D.tells (D.files disk.old) }
    ensures fit { OnOk result (IsFit commits (value_of core.new) D.tells (D.files disk.new)) }
{
    for number in 0..commits {
        core.commit(disk, &[])?;
    }
    Ok(())
}

/// A new queue with so many small messages, after so many commits.
pub(crate) fn filled<D: Disk>(
    alloc: Global,
    disk: &mut D,
    count: u32,
    commits: u32,
) -> Result<QueueCore, QueueError>
    requires { D.tells → (n : Name) → D.files disk.old n ≡ None }
    ensures { IfOk result (λ core. IsFit commits (value_of core) D.tells (D.files disk.new)) }
{
    let mut core = QueueCore::vacant(alloc, QUEUE, LENGTH);
    publish_all(&mut core, alloc, count)?;
    commit_all(&mut core, disk, commits)?;
    Ok(core)
}

/// Whether the client gets the next message, under this number among its deliveries.
fn get(core: &mut QueueCore, delivery: u32) -> bool
    ensures { GoesOn (value_of core.old) (value_of core.new) }
{
    if core.waiting() == 0 || core.is_out(CLIENT, delivery) {
        return false;
    }
    core.deliver(CLIENT, delivery);
    true
}

/// Acknowledges a delivery, unless it is the one that is left.
fn acknowledge(core: &mut QueueCore, delivery: u32, left: u32)
    ensures { GoesOn (value_of core.old) (value_of core.new) }
{
    if delivery == left {
        return;
    }
    core.acked(CLIENT, delivery);
}

/// Whether the client gets so many messages, and acknowledges each but the one of this number.
pub(crate) fn get_all(core: &mut QueueCore, count: u32, left: u32) -> bool
    ensures { GoesOn (value_of core.old) (value_of core.new) }
{
    for delivery in 0..count {
        if !get(core, delivery) {
            return false;
        }
        acknowledge(core, delivery, left);
    }
    true
}

/// Whether these are the numbers from 1 on, so many of them.
fn are_first(ids: &[u128], count: usize) -> bool {
    for at in 0..ids.len() {
        if ids[at] != at as u128 + 1 {
            return false;
        }
    }
    ids.len() == count
}

/// Sixteen messages come and go: the moments after the commit, the settling and the removal.
fn sixteen<D: Disk>(alloc: Global, disk: &mut D) -> Result<Option<[u64; 3]>, QueueError>
    requires { D.tells → (n : Name) → D.files disk.old n ≡ None }
{
    let mut core = filled(alloc, disk, 16, 1)?;
    let committed = disk.moment();
    if !get_all(&mut core, 16, 16) {
        return Ok(None);
    }
    let ids = core.settle(disk)?;
    let settled = disk.moment();
    if !core.remove_segment(disk)? || !are_first(&ids, 16) {
        return Ok(None);
    }
    Ok(Some([committed, settled, disk.moment()]))
}

/// Which files of a kind are there, by number.
fn present(disk: &MemDisk, kind: Kind) -> [bool; 8] {
    let mut there = [false; 8];
    for number in 0..8usize {
        there[number] = disk.bytes(name(kind, number as u64)).is_some();
    }
    there
}

#[test]
fn sixteen_messages_come_and_go(rt: HostRuntime) -> Result<(), Fail> {
    let alloc = rt.alloc();
    let mut disk = MemDisk::new(alloc, Vec::new(alloc));
    // Each file takes eight calls. Then come sixteen statuses and a sync, and two removals.
    let moments = sixteen(alloc, &mut disk)?;
    assert!(rt; moments == Some([16, 33, 35]));
    assert!(rt; present(&disk, Kind::Index) == [false; 8]);
    assert!(rt; present(&disk, Kind::Small) == [false; 8]);
    Ok(())
}

/// The body of the first message that waits, where that is a small one with this length.
pub(crate) fn first_body<D: Disk>(
    core: &mut QueueCore,
    disk: &mut D,
) -> Result<Option<[u8; 2]>, QueueError>
    requires running { IsRunning (value_of core.old) }
    requires at { D.tells → IsOnDisk (value_of core.old) (D.files disk.old) }
{
    let Some(first) = core.first_waiting() else {
        return Ok(None);
    };
    let EntryKind::Small = first.kind else {
        return Ok(None);
    };
    if first.len != 2 {
        return Ok(None);
    }
    let mut body = [0; 2];
    core.read(disk, first.id, &mut body)?;
    Ok(Some(body))
}

/// A hundred messages by seven commits, and the body of the first: the moments before it was read, and after.
fn hundred<D: Disk>(alloc: Global, disk: &mut D) -> Result<(u64, Option<[u8; 2]>, u64), QueueError>
    requires { D.tells → (n : Name) → D.files disk.old n ≡ None }
{
    let mut core = filled(alloc, disk, 100, 7)?;
    let committed = disk.moment();
    let body = first_body(&mut core, disk)?;
    Ok((committed, body, disk.moment()))
}

#[test]
fn a_hundred_messages_take_seven_segments(rt: HostRuntime) -> Result<(), Fail> {
    let alloc = rt.alloc();
    let mut disk = MemDisk::new(alloc, Vec::new(alloc));
    assert!(rt; hundred(alloc, &mut disk)? == (112, Some(BODY), 113));
    let there = [true, true, true, true, true, true, true, false];
    assert!(rt; present(&disk, Kind::Index) == there && present(&disk, Kind::Small) == there);
    let last = disk.bytes(name(Kind::Index, 6)).unwrap_or(&[]);
    assert!(rt; last.len() == 256);
    Ok(())
}
