// One file that is replayed: its bytes as they read, and what the disk knows since its last sync.
ghost use Rattle.std.specs.Prelude.{◌≡◌, ◌<◌, ◌≤◌, ◌+◌, ◌-◌, ◌^◌, ℕ, [], length, slice_index, OnOk, OnErr, IfOk, IsTrue, ◌↔◌, ◌∷◌, take, drop, ◌++◌};
ghost use Rattle.cq_disk.specs.File.{overwritten, wrote, cut_to, synced_now, fresh, settled};
ghost use Rattle.cq_memdisk.specs.Ranges.{Copied, IsPadded};
ghost use Rattle.cq_memdisk.specs.Crash.{bit_of};

use crate::folder;
use std::alloc::{AllocError, Global};

/// A file while a record of calls is replayed: how it reads, and what a crash may leave of it.
#[derive(Drop)]
pub(crate) struct Stored {
    alloc: Global,
    bytes: Vec<u8>,
    synced: Vec<u8>,
    /// The ranges written since the last sync, the oldest first.
    written: Vec<(u64, u64)>,
    least: u64,
    most: u64,
}

impl Stored {
    ghost use Rattle.cq_memdisk.specs.Stored.{file_of};
    ghost use Rattle.cq_memdisk.specs.Change.{IsSound};
    ghost use Rattle.cq_memdisk.specs.Crash.{IsNumbered, IsFilled};

    /// A new file.
    pub(crate) fn new(alloc: Global) -> Stored
        ensures { file_of result ≡ fresh }
    {
        Stored {
            alloc,
            bytes: Vec::new(alloc),
            synced: Vec::new(alloc),
            written: Vec::new(alloc),
            least: 0,
            most: 0,
        }
    }

    /// A file with these bytes, all of them on the disk.
    pub(crate) fn settled(alloc: Global, bytes: &[u8]) -> Result<Stored, AllocError>
        ensures { IfOk result (λ s. file_of s ≡ settled bytes.now) }
    {
        Ok(Stored {
            alloc,
            bytes: bytes.to_vec(alloc)?,
            synced: bytes.to_vec(alloc)?,
            written: Vec::new(alloc),
            least: bytes.len() as u64,
            most: bytes.len() as u64,
        })
    }

    /// Writes over what is there, and past the end.
    pub(crate) fn write(&mut self, at: u64, bytes: &[u8]) -> Result<(), AllocError>
        requires { at + length bytes.now ≤ 2 ^ 62 }
        ensures { OnOk result (file_of self.new ≡ wrote at bytes.now (file_of self.old)) }
    {
        let place = (at as usize).min(self.bytes.len());
        folder::overwrite(&mut self.bytes, place, bytes)?;
        self.written.push((at, bytes.len() as u64))?;
        self.most = self.most.max(at + bytes.len() as u64);
        Ok(())
    }

    /// Cuts the file to a length.
    pub(crate) fn cut(&mut self, len: u64)
        ensures { file_of self.new ≡ cut_to len (file_of self.old) }
    {
        self.bytes.truncate(len as usize);
        self.least = self.least.min(len);
    }

    /// Makes sure of what is there: what was written below the least length, and all bytes past it.
    pub(crate) fn sync(&mut self) -> Result<(), AllocError>
        requires { IsSound (file_of self.old) }
        ensures { OnOk result (file_of self.new ≡ synced_now (file_of self.old)) }
    {
        let least = self.least as usize;
        extend_from(&mut self.synced, &self.bytes, least)?;
        copy_ranges(&mut self.synced, &self.bytes, &self.written, least);
        self.written = Vec::new(self.alloc);
        self.least = self.bytes.len() as u64;
        self.most = self.bytes.len() as u64;
        Ok(())
    }

    /// The bytes of image n, where this is the file at this place in the order of names.
    pub(crate) fn image(&self, n: u64, place: usize) -> Result<Vec<u8>, AllocError>
        requires { IsSound (file_of self.now) }
        ensures { IfOk result (λ bytes. IsNumbered n place (file_of self.now) bytes.items) }
    {
        if n == 1 || n >= 258 && bit(n - 258, place) {
            return self.bytes.to_vec(self.alloc);
        }
        if n == 0 || n >= 258 {
            return self.synced.to_vec(self.alloc);
        }
        self.filled((n - 2) as u8)
    }

    /// The largest length, with this byte in each place that waits for a sync.
    fn filled(&self, byte: u8) -> Result<Vec<u8>, AllocError>
        requires { IsSound (file_of self.now) }
        ensures { IfOk result (λ bytes. IsFilled byte (file_of self.now) bytes.items) }
    {
        let least = self.least as usize;
        let most = self.most as usize;
        let mut bytes = padded(self.alloc, &self.synced, least, most, byte)?;
        let blank = padded(self.alloc, &[], 0, most, byte)?;
        copy_ranges(&mut bytes, &blank, &self.written, least);
        Ok(bytes)
    }
}

/// Whether bit `place` modulo 32 of a mask is set.
fn bit(mask: u64, place: usize) -> bool
    ensures { IsTrue result ↔ (bit_of mask place ≡ 1) }
{
    let shift = (place % 32) as u32;
    mask / (1 << shift) % 2 == 1
}

/// Cuts a list of bytes at a place, and goes on as another does from there on.
fn extend_from(to: &mut Vec<u8>, from: &[u8], at: usize) -> Result<(), AllocError>
    requires { at ≤ length from.now }
    ensures { OnOk result (to.new.items ≡ take at to.old.items ++ drop at from.now) }
{
    to.truncate(at);
    to.extend_from_slice(&from[at..])
}

/// The front of a list of bytes, and one byte again and again up to a length.
fn padded(
    alloc: Global,
    from: &[u8],
    front: usize,
    len: usize,
    byte: u8,
) -> Result<Vec<u8>, AllocError>
    requires { (front ≤ length from.now) × (front ≤ len) }
    ensures { IfOk result (λ bytes. IsPadded from.now front len byte bytes.items) }
{
    let mut bytes = from[..front].to_vec(alloc)?;
    bytes.resize(len, byte)?;
    Ok(bytes)
}

/// Copies the bytes from a place up to another.
fn copy_part(to: &mut Vec<u8>, from: &[u8], start: usize, stop: usize)
    requires order { start ≤ stop }
    requires inside { stop ≤ length to.old.items }
    requires there { stop ≤ length from.now }
    ensures { to.new.items ≡ overwritten to.old.items start (take (stop - start) (drop start from.now)) }
{
    to[start..stop].copy_from_slice(&from[start..stop]);
}

/// Copies the bytes of one range that stand below an end.
fn copy_range(to: &mut Vec<u8>, from: &[u8], at: u64, len: u64, end: usize)
    requires lens { length to.old.items ≡ length from.now }
    requires within { end ≤ length from.now }
    ensures { Copied ((at, len) ∷ []) end from.now to.old.items to.new.items }
{
    let start = at.min(end as u64) as usize;
    let stop = at.saturating_add(len).min(end as u64) as usize;
    copy_part(to, from, start, stop);
}

/// Copies the bytes in these ranges that stand below an end.
fn copy_ranges(to: &mut Vec<u8>, from: &[u8], ranges: &[(u64, u64)], end: usize)
    requires lens { length to.old.items ≡ length from.now }
    requires within { end ≤ length from.now }
    ensures { Copied ranges.now end from.now to.old.items to.new.items }
{
    for range in ranges {
        let (at, len) = *range;
        copy_range(to, from, at, len, end);
    }
}
