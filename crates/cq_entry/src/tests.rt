// The bytes of entries.
use crate::{Entry, EntryKind, Seen, broken_at, decode, encode};

/// A small entry: a body of 5 bytes, the id 1, the place 128.
const SMALL: [u8; 32] = [
    1, 1, 0, 0, 0, 0, 0, 5, 0, 0, 0, 0, 0, 0, 0, 0, 0, 0, 0, 0, 0, 0, 0, 1, 0, 0, 0, 0, 0, 0, 0,
    0x80,
];

/// A shared entry: a body of 1,048,576 bytes, the greatest id, no place.
const SHARED: [u8; 32] = [
    1, 2, 0, 0, 0, 0x10, 0, 0, 255, 255, 255, 255, 255, 255, 255, 255, 255, 255, 255, 255, 255,
    255, 255, 255, 0, 0, 0, 0, 0, 0, 0, 0,
];

/// A byte of an entry at which another stands, and the first byte of the first field that is broken so.
const CHANGES: [([u8; 32], usize, u8, Option<u32>); 21] = [
    (SMALL, 0, 1, None),
    (SMALL, 1, 0, Some(1)),
    (SMALL, 1, 2, Some(24)),
    (SMALL, 1, 3, Some(1)),
    (SMALL, 2, 1, Some(2)),
    (SMALL, 3, 1, Some(2)),
    (SMALL, 4, 1, Some(4)),
    (SMALL, 5, 0x10, Some(4)),
    (SMALL, 5, 0x0f, None),
    (SMALL, 23, 0, Some(8)),
    (SMALL, 8, 255, None),
    (SMALL, 24, 255, None),
    (SMALL, 31, 0, None),
    (SHARED, 0, 1, None),
    (SHARED, 1, 1, None),
    (SHARED, 1, 255, Some(1)),
    (SHARED, 6, 255, Some(4)),
    (SHARED, 7, 1, Some(4)),
    (SHARED, 8, 0, None),
    (SHARED, 24, 1, Some(24)),
    (SHARED, 31, 1, Some(24)),
];

#[test]
fn each_field_keeps_its_range(rt: HostRuntime) {
    for (entry, at, byte, broken) in CHANGES {
        let mut bytes = entry;
        if let Some(changed) = bytes.get_mut(at) {
            *changed = byte;
        }
        assert_eq!(rt; broken_at(&bytes), broken, "byte {byte} at {at}");
        match decode(&bytes) {
            Some(Seen::Present(entry)) => {
                assert_eq!(rt; broken, None, "byte {byte} at {at}");
                assert_eq!(rt; encode(&entry), bytes, "byte {byte} at {at}");
            }
            other => assert!(rt; other.is_none() && broken.is_some(), "byte {byte} at {at}"),
        }
        for status in [0, 2, 255] {
            bytes[0] = status;
            assert_eq!(rt; decode(&bytes), Some(Seen::Gone), "status {status}");
        }
    }
}

#[test]
fn an_entry_is_spelled_and_read(rt: HostRuntime) {
    let small = Entry {
        kind: EntryKind::Small,
        len: 5,
        id: 1,
        place: 128,
    };
    let shared = Entry {
        kind: EntryKind::Shared,
        len: 1_048_576,
        id: u128::MAX,
        place: 0,
    };
    for (entry, bytes) in [(small, SMALL), (shared, SHARED)] {
        assert_eq!(rt; encode(&entry), bytes);
        assert_eq!(rt; decode(&bytes), Some(Seen::Present(entry)));
    }
}
