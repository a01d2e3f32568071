// The ids of new messages, where others stood in the folder, and the batch of two messages.
ghost use Rattle.std.specs.Prelude.{◌≡◌, ◌<◌, ◌+◌};

use cq_bytes::Body;
use cq_core::{Batch, Ids, RecordPlace, batch_of};
use cq_entry::{Entry, EntryKind};
use cq_journal::Message;
use std::alloc::{AllocError, Global};
use std::collections::VecDeque;
use std::test::Fail;

/// The next id, which is then given.
fn give(ids: &mut Ids) -> u128
    requires { ids.old.given < 6 }
    ensures { ids.new.given ≡ ids.old.given + 1 }
{
    let id = ids.next();
    ids.advance();
    id
}

/// The first six ids where these stood.
fn first_ids(alloc: Global, stood: &[u128]) -> Result<[u128; 6], AllocError> {
    let mut ids = Ids::new(stood.to_vec(alloc)?)?;
    let given = [
        give(&mut ids),
        give(&mut ids),
        give(&mut ids),
        give(&mut ids),
        give(&mut ids),
        give(&mut ids),
    ];
    Ok(given)
}

/// Ids that stood in the folder, and the first six that are given.
const IDS: [(&[u128], [u128; 6]); 6] = [
    (&[], [1, 2, 3, 4, 5, 6]),
    (&[1], [2, 3, 4, 5, 6, 7]),
    (&[2, 3], [1, 4, 5, 6, 7, 8]),
    (&[5, 1, 2], [3, 4, 6, 7, 8, 9]),
    (&[u128::MAX, 1], [2, 3, 4, 5, 6, 7]),
    (&[3, 3, 1], [2, 4, 5, 6, 7, 8]),
];

#[test]
fn the_least_free_ids_come(rt: HostRuntime) -> Result<(), Fail> {
    for (stood, expected) in IDS {
        let ids = first_ids(rt.alloc(), stood)?;
        assert!(rt; ids == expected, "where {stood:?} stood");
    }
    Ok(())
}

/// The batch of the messages 7, with the body "hi", and 3, with none, from the place 128 on.
fn batch(alloc: Global) -> Result<Batch, AllocError> {
    let hi = Body::copy(alloc, b"hi")?;
    let empty = Body::copy(alloc, b"")?;
    let mut messages = VecDeque::new(alloc);
    messages.push_back(Message { id: 7, body: hi })?;
    messages.push_back(Message { id: 3, body: empty })?;
    batch_of(alloc, &messages, 128)
}

/// Their records.
const RECORDS: &[u8] = b"\x00\x00\x00\x02hi\xff\x00\x00\x00\x00\xff";

/// Where these stand.
const SPOTS: &[RecordPlace] = &[
    RecordPlace {
        id: 7,
        place: 128,
        len: 2,
    },
    RecordPlace {
        id: 3,
        place: 135,
        len: 0,
    },
];

/// Their entries.
const ENTRIES: &[Entry] = &[
    Entry {
        kind: EntryKind::Small,
        len: 2,
        id: 7,
        place: 128,
    },
    Entry {
        kind: EntryKind::Small,
        len: 0,
        id: 3,
        place: 135,
    },
];

/// Whether a batch is made of these.
fn is_laid_out(batch: &Batch) -> bool {
    batch.records.bytes() == RECORDS
        && batch.spots.as_slice() == SPOTS
        && batch.entries.as_slice() == ENTRIES
}

#[test]
fn a_batch_lays_out_its_messages(rt: HostRuntime) -> Result<(), Fail> {
    assert!(rt; is_laid_out(&batch(rt.alloc())?));
    Ok(())
}
