// Big-endian numbers that are read from a slice, or written into one.
ghost use Rattle.std.specs.Prelude.{◌≡◌, ◌+◌, ◌<◌, ◌≤◌, length, take, drop, MatchOption};
ghost use Rattle.std.specs.Int.{w16, w32, w64, w128};
ghost use Rattle.cq_bytes.specs.Field.{number_at, with_number_at};

/// The bytes from `at` on, as many as the array has. `None` exactly where they don't lie in the slice.
fn field<const N: usize>(from: &[u8], at: usize) -> Option<[u8; N]>
    ensures { MatchOption result (length from.now < at + N)
        (λ bytes. (at + N ≤ length from.now) × (bytes ≡ take N (drop at from.now))) }
{
    let rest = from.get(at..)?;
    Some(*rest.first_chunk()?)
}

/// The big-endian `u16` from the byte `at` on. `None` exactly where it doesn't lie in the slice.
pub fn take_u16(from: &[u8], at: usize) -> Option<u16>
    ensures { MatchOption result (length from.now < at + 2)
        (λ n. (at + 2 ≤ length from.now) × (n ≡ number_at w16 from.now at)) }
{
    Some(u16::from_be_bytes(field(from, at)?))
}

/// The big-endian `u32` from the byte `at` on. `None` exactly where it doesn't lie in the slice.
pub fn take_u32(from: &[u8], at: usize) -> Option<u32>
    ensures { MatchOption result (length from.now < at + 4)
        (λ n. (at + 4 ≤ length from.now) × (n ≡ number_at w32 from.now at)) }
{
    Some(u32::from_be_bytes(field(from, at)?))
}

/// The big-endian `u64` from the byte `at` on. `None` exactly where it doesn't lie in the slice.
pub fn take_u64(from: &[u8], at: usize) -> Option<u64>
    ensures { MatchOption result (length from.now < at + 8)
        (λ n. (at + 8 ≤ length from.now) × (n ≡ number_at w64 from.now at)) }
{
    Some(u64::from_be_bytes(field(from, at)?))
}

/// The big-endian `u128` from the byte `at` on. `None` exactly where it doesn't lie in the slice.
pub fn take_u128(from: &[u8], at: usize) -> Option<u128>
    ensures { MatchOption result (length from.now < at + 16)
        (λ n. (at + 16 ≤ length from.now) × (n ≡ number_at w128 from.now at)) }
{
    Some(u128::from_be_bytes(field(from, at)?))
}

/// Writes a number big-endian over the four bytes from `at` on.
pub fn put_u32(into: &mut [u8], at: usize, value: u32)
    requires { at + 4 ≤ length into.old }
    ensures { into.new ≡ with_number_at w32 into.old at value }
{
    into[at..at + 4].copy_from_slice(&value.to_be_bytes());
}

/// Writes a number big-endian over the eight bytes from `at` on.
pub fn put_u64(into: &mut [u8], at: usize, value: u64)
    requires { at + 8 ≤ length into.old }
    ensures { into.new ≡ with_number_at w64 into.old at value }
{
    into[at..at + 8].copy_from_slice(&value.to_be_bytes());
}

/// Writes a number big-endian over the sixteen bytes from `at` on.
pub fn put_u128(into: &mut [u8], at: usize, value: u128)
    requires { at + 16 ≤ length into.old }
    ensures { into.new ≡ with_number_at w128 into.old at value }
{
    into[at..at + 16].copy_from_slice(&value.to_be_bytes());
}
