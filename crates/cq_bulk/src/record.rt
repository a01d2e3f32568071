// The body of one record.
ghost use Rattle.std.specs.Prelude.{◌≡◌, ◌≢◌, ◌↔◌, ◌+◌, ◌≤◌, ◌-◌, ◌++◌, ℕ, List, [], length, true, vec_len, vec_capacity, MatchOption};
ghost use Rattle.cq_small.specs.Record.{small_record};
ghost use Rattle.cq_bulk.specs.Ranges.{IsRecord};

use cq_bytes::{Body, take_u32};

/// The body whose record these bytes are, in a list that has room for it. `None` exactly where they aren't a record's.
pub(crate) fn body_in(bytes: &[u8], mut room: Vec<u8>) -> Option<Body>
    requires len { (5 ≤ length bytes.now) × (length bytes.now ≤ 1048581) }
    requires empty { room.items ≡ [] }
    requires room { length bytes.now ≤ vec_capacity room + 5 }
    ensures { MatchOption result ((b : List ℕ) → bytes.now ≢ small_record b) (λ b. bytes.now ≡ small_record b) }
{
    if !is_record(bytes) {
        return None;
    }
    append(&mut room, &bytes[4..bytes.len() - 1]);
    Some(Body::from_vec(room))
}

/// Whether these bytes are a record: the length of its body first, and 255 at the end.
fn is_record(bytes: &[u8]) -> bool
    requires { (5 ≤ length bytes.now) × (length bytes.now ≤ 1048581) }
    ensures { (result ≡ true) ↔ IsRecord bytes.now }
{
    let len = bytes.len() - 5;
    take_u32(bytes, 0) == Some(len as u32) && bytes[len + 4] == 255
}

/// Appends bytes for which there is room.
fn append(bytes: &mut Vec<u8>, more: &[u8])
    requires { vec_len bytes.old + length more.now ≤ vec_capacity bytes.old }
    ensures { bytes.new.items ≡ bytes.old.items ++ more.now }
{
    match bytes.extend_from_slice(more) {
        Ok(()) => {}
        Err(_) => unreachable!(),
    }
}
