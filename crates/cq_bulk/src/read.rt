// One read of a file.
ghost use Rattle.std.specs.Prelude.{◌≡◌, ◌+◌, ◌≤◌, length, vec_len, IfOk, OnOk, IsErr, IsErrOf};
ghost use Rattle.cq_disk.specs.Files.{IsThere, Reads};
ghost use Rattle.cq_disk.specs.Run.{Ran, OnlyReads};
ghost use Rattle.cq_bulk.specs.declared.error.BodyError.TheVariants.{Fault as body_fault, Memory};
ghost use Rattle.cq_bulk.specs.Ranges.{is_range};

use crate::error::BodyError;
use cq_disk::{Disk, Fault, Name};
use std::alloc::Global;

/// Fills a buffer with the file's bytes from a place on. The range lies in the file.
pub(crate) fn read_at<D: Disk>(
    disk: &mut D,
    name: Name,
    at: u64,
    into: &mut [u8],
) -> Result<(), Fault>
    requires { D.tells → IsThere (D.files disk.old name) (λ f. at + length into.old ≤ length f.reads) }
    ensures bytes { OnOk result (D.tells → Reads (D.files disk.old name) at into.new) }
    ensures reads { D.tells → OnlyReads D.Disk disk.old disk.new }
    ensures ran { Ran D.Disk disk.old disk.new (IsErr result) }
    ensures calls { OnOk result (D.moment disk.new ≡ D.moment disk.old + 1) }
{
    disk.read(name, at, into)
}

/// So many of the file's bytes from a place on. The range lies in the file.
pub(crate) fn read_bytes<D: Disk>(
    alloc: Global,
    disk: &mut D,
    name: Name,
    at: u64,
    len: usize,
) -> Result<Vec<u8>, BodyError>
    requires { D.tells → IsThere (D.files disk.old name) (λ f. at + len ≤ length f.reads) }
    ensures len { IfOk result (λ bytes. length bytes.items ≡ len) }
    ensures bytes { IfOk result (λ bytes. D.tells → Reads (D.files disk.old name) at bytes.items) }
    ensures memory { IsErrOf result Memory → disk.new ≡ disk.old }
    ensures reads { D.tells → OnlyReads D.Disk disk.old disk.new }
    ensures ran { Ran D.Disk disk.old disk.new (IsErrOf result body_fault) }
    ensures calls { OnOk result (D.moment disk.new ≡ D.moment disk.old + 1) }
{
    let mut bytes = vec![in alloc; 0; len]?;
    read_at(disk, name, at, &mut bytes)?;
    Ok(bytes)
}

/// Whether the record of a body of this length at a place lies between two places.
pub(crate) fn fits(from: u64, to: u64, place: u64, len: u32) -> bool
    ensures { result ≡ is_range from to place len }
{
    if place < from || to < place {
        return false;
    }
    len as u64 + 5 <= to - place
}
