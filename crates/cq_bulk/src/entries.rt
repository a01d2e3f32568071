// The present entries of a segment, read at once.
ghost use Rattle.std.specs.Prelude.{◌≡◌, ◌+◌, ◌*◌, ◌≤◌, ◌<◌, [], All, length, slice_index, vec_capacity, IfOk, IfErr, IsErrOf, OnOk, ◌++◌, ◌∷◌};
ghost use Rattle.std.specs.List.{AllZip};
ghost use Rattle.cq_disk.specs.Run.{Ran, OnlyReads};
ghost use Rattle.cq_index.specs.declared.error.SegmentError.TheVariants.{Fault as segment_fault, Memory};
ghost use Rattle.cq_index.specs.Codec.{IsPresent, entry_len};
ghost use Rattle.cq_index.specs.Opened.{IfDamaged, IsWrong, piece_at};
ghost use Rattle.cq_index.specs.Segments.{name_of, present_of, IsFiled};
ghost use Rattle.cq_bulk.specs.Entries.{AreRead, IsMisreadOf, IsWrongAmong, IsWrongPiece, calls_for};

use crate::read::read_at;
use cq_disk::{Disk, Kind, Name};
use cq_entry::{ENTRY_BYTES, Entry, Seen, broken_at, decode};
use cq_gate::HEADER_LEN;
use cq_index::{Segment, SegmentError};
use std::alloc::Global;

/// The present entries of a segment of this queue, in the order of their places: one read of the index's content, and none
/// where no entry is present. It takes its memory before the read.
///
/// `Damaged` never comes where the disk tells its files: elsewhere the bytes that were read of a place that the segment
/// lists aren't a present entry's, and the first byte that is wrong is told.
pub fn present_entries<D: Disk>(
    alloc: Global,
    disk: &mut D,
    queue: u32,
    segment: &Segment,
) -> Result<Vec<Entry>, SegmentError>
    requires queue { (name_of segment.now).queue ≡ queue }
    requires segment { D.tells → IsFiled segment.now (D.files disk.old (name_of segment.now)) }
    ensures entries { IfOk result (λ entries. AreRead D.Disk segment.now disk.old entries.items) }
    ensures damaged { IfErr result (λ error. IfDamaged error (IsMisreadOf D.tells (present_of segment.now))) }
    ensures memory { IsErrOf result Memory → disk.new ≡ disk.old }
    ensures reads { D.tells → OnlyReads D.Disk disk.old disk.new }
    ensures ran { Ran D.Disk disk.old disk.new (IsErrOf result segment_fault) }
    ensures calls { OnOk result (D.moment disk.new ≡ D.moment disk.old + calls_for (present_of segment.now)) }
{
    let present = segment.present();
    if present.is_empty() {
        return Ok(Vec::new(alloc));
    }
    let mut entries = Vec::with_capacity(alloc, present.len())?;
    let mut bytes = vec![in alloc; 0; ENTRY_BYTES * segment.count() as usize]?;
    let name = Name {
        kind: Kind::Index,
        queue,
        number: segment.number(),
    };
    read_at(disk, name, HEADER_LEN, &mut bytes)?;
    match pick(&bytes, present, &mut entries) {
        Ok(()) => Ok(entries),
        Err((place, found)) => Err(SegmentError::Damaged { place, found }),
    }
}

/// Puts the entries at these places among bytes of entries into an empty list that has room for them. Where one isn't a
/// present entry, the first byte that is wrong: its place in the file, and the byte.
fn pick(bytes: &[u8], present: &[u32], entries: &mut Vec<Entry>) -> Result<(), (u64, u8)>
    requires inside { All (λ k. entry_len * (k + 1) ≤ length bytes.now) present.now }
    requires empty { entries.old.items ≡ [] }
    requires room { length present.now ≤ vec_capacity entries.old }
    ensures entries { OnOk result (AllZip (λ k e. IsPresent (piece_at bytes.now k) e) present.now entries.new.items) }
    ensures wrong { IfErr result (λ wrong. IsWrongAmong bytes.now present.now wrong.0 wrong.1) }
{
    for at in present {
        match entry_in(bytes, *at) {
            Ok(entry) => put(entries, entry),
            Err(wrong) => return Err(wrong),
        }
    }
    Ok(())
}

/// Puts an entry behind the others, where there is room.
fn put(entries: &mut Vec<Entry>, entry: Entry)
    requires { length entries.old.items < vec_capacity entries.old }
    ensures items { entries.new.items ≡ entries.old.items ++ entry ∷ [] }
    ensures capacity { vec_capacity entries.old ≤ vec_capacity entries.new }
{
    match entries.push(entry) {
        Ok(()) => {}
        Err(_) => unreachable!(),
    }
}

/// The present entry at a place among bytes of entries, or the first byte that is wrong: its place in the file, and the
/// byte.
fn entry_in(bytes: &[u8], at: u32) -> Result<Entry, (u64, u8)>
    requires { entry_len * (at + 1) ≤ length bytes.now }
    ensures entry { IfOk result (λ entry. IsPresent (piece_at bytes.now at) entry) }
    ensures wrong { IfErr result (λ wrong. IsWrongPiece bytes.now at wrong.0 wrong.1) }
{
    let piece = piece(bytes, at);
    match present_in(&piece) {
        Ok(entry) => Ok(entry),
        Err(byte) => Err((
            HEADER_LEN + ENTRY_BYTES as u64 * at as u64 + byte as u64,
            piece[byte as usize],
        )),
    }
}

/// The bytes of the entry at a place among bytes of entries.
fn piece(bytes: &[u8], at: u32) -> [u8; 32]
    requires { entry_len * (at + 1) ≤ length bytes.now }
    ensures { result ≡ piece_at bytes.now at }
{
    let start = ENTRY_BYTES * at as usize;
    let mut entry = [0; 32];
    entry.copy_from_slice(&bytes[start..start + ENTRY_BYTES]);
    entry
}

/// The present entry in these bytes, or the first byte that is wrong: the status, or that of a field that breaks its rule.
fn present_in(bytes: &[u8; 32]) -> Result<Entry, u32>
    ensures entry { IfOk result (λ entry. IsPresent bytes.now entry) }
    ensures wrong { IfErr result (λ byte. (byte < 32) × IsWrong bytes.now byte) }
{
    match decode(bytes) {
        Some(Seen::Present(entry)) => Ok(entry),
        Some(Seen::Gone) => Err(0),
        None => match broken_at(bytes) {
            Some(byte) => Err(byte),
            None => unreachable!(),
        },
    }
}
