// A present entry, and its bytes.
ghost use Rattle.std.specs.Prelude.{◌≡◌, ◌↔◌, Some, IsSome, IfSome, MatchOption};
ghost use Rattle.cq_entry.specs.declared.entry.Entry.{Entry};
ghost use Rattle.cq_entry.specs.declared.entry.Seen.TheVariants.{Present};
ghost use Rattle.cq_entry.specs.Entry.{IsEntry, entry_bytes, kind_byte, IsPresent, IsSeen, IsForm, BreaksAt, entry_of};

use cq_bytes::{put_u32, put_u64, put_u128, take_u16, take_u32, take_u64, take_u128};

/// How many bytes an entry has.
pub const ENTRY_BYTES: usize = 32;

/// The status of a present entry. Each other one is that of an entry that is gone.
pub const PRESENT: u8 = 1;

/// How many bytes a body has at most.
const MOST_BYTES: u32 = 1_048_576;

/// Where the body of a message stands.
#[derive(Clone, Copy, Debug, PartialEq, Eq)]
pub enum EntryKind {
    /// In the small store of the entry's queue and segment.
    Small,
    /// In a shared file.
    Shared,
}

/// A present entry of an index.
#[derive(Clone, Copy, Debug, PartialEq, Eq)]
pub struct Entry {
    pub kind: EntryKind,
    /// How many bytes the body has, at most 1,048,576.
    pub len: u32,
    /// The message's id, which isn't 0.
    pub id: u128,
    /// Where the record stands in the small store, from the file's first byte. 0 for a shared one.
    pub place: u64,
}

/// What stands at an entry's place.
#[derive(Clone, Copy, Debug, PartialEq, Eq)]
pub enum Seen {
    /// An entry that isn't present any more.
    Gone,
    /// A present entry.
    Present(Entry),
}

/// The 32 bytes of a present entry: the status 1, the kind (1 small, 2 shared), two zeros, the body's length in 4
/// bytes, the id in 16 and the place in 8, big-endian.
pub fn encode(entry: &Entry) -> [u8; 32]
    requires { IsEntry entry.now }
    ensures bytes { result ≡ entry_bytes entry.now }
    ensures present { IsPresent result entry.now }
{
    spell(entry.kind, entry.len, entry.id, entry.place)
}

/// The bytes of an entry with these fields.
fn spell(kind: EntryKind, len: u32, id: u128, place: u64) -> [u8; 32]
    requires { IsEntry (record { kind = kind; len = len; id = id; place = place }) }
    ensures { IsPresent result (record { kind = kind; len = len; id = id; place = place }) }
{
    let mut bytes = [0; 32];
    bytes[0] = PRESENT;
    bytes[1] = kind_byte(kind);
    put_u32(&mut bytes, 4, len);
    put_u128(&mut bytes, 8, id);
    put_u64(&mut bytes, 24, place);
    bytes
}

/// The byte that stands for a kind.
fn kind_byte(kind: EntryKind) -> u8
    ensures { result ≡ kind_byte kind }
{
    match kind {
        EntryKind::Small => 1,
        EntryKind::Shared => 2,
    }
}

/// What stands in the 32 bytes of an entry. `None` exactly outside the form; `broken_at` tells where.
pub fn decode(bytes: &[u8; 32]) -> Option<Seen>
    ensures form { IsSome result ↔ IsForm bytes.now }
    ensures seen { IfSome result (λ seen. IsSeen bytes.now seen) }
    // What `encode` wrote reads back.
    ensures back { (e : Entry) → IsPresent bytes.now e → result ≡ Some (Present e) }
{
    if bytes[0] != PRESENT {
        return Some(Seen::Gone);
    }
    match broken_at(bytes) {
        Some(_) => None,
        None => Some(Seen::Present(fields(bytes))),
    }
}

/// The first byte of the first field of a present entry that breaks its rule, below 32. `None` exactly where the bytes
/// are of the form; those of an entry that is gone always are.
pub fn broken_at(bytes: &[u8; 32]) -> Option<u32>
    ensures { MatchOption result (IsForm bytes.now) (λ at. BreaksAt bytes.now at) }
{
    if bytes[0] != PRESENT {
        return None;
    }
    if bytes[1] != 1 && bytes[1] != 2 {
        return Some(1);
    }
    if take_u16(bytes, 2) != Some(0) {
        return Some(2);
    }
    if take_u32(bytes, 4).is_none_or(|len| len > MOST_BYTES) {
        return Some(4);
    }
    if take_u128(bytes, 8) == Some(0) {
        return Some(8);
    }
    if bytes[1] == 2 && take_u64(bytes, 24) != Some(0) {
        return Some(24);
    }
    None
}

/// The fields of an entry, where they keep their rules.
fn fields(bytes: &[u8; 32]) -> Entry
    ensures { result ≡ entry_of bytes.now }
{
    Entry {
        kind: if bytes[1] == 1 {
            EntryKind::Small
        } else {
            EntryKind::Shared
        },
        len: take_u32(bytes, 4).unwrap_or(0),
        id: take_u128(bytes, 8).unwrap_or(0),
        place: take_u64(bytes, 24).unwrap_or(0),
    }
}
