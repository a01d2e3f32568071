// The bytes of the files, and the changes to them.
ghost use Rattle.std.specs.Prelude.{◌≡◌, ◌≤◌, ◌+◌, ◌^◌, OnOk, OnErr, IfOk, length, take, Some, None, [], ℕ, List};
ghost use Rattle.std.specs.BTreeMap.{keys, IsOrdered};
ghost use Rattle.std.specs.Option.{option_map};
ghost use Rattle.cq_disk.specs.Names.{name_cmp};
ghost use Rattle.cq_disk.specs.File.{overwritten};
ghost use Rattle.cq_disk.specs.Files.{Becomes, SameFiles};
ghost use Rattle.cq_memdisk.specs.Folder.{bytes_of, IfThere};

use cq_disk::Name;
use std::alloc::{AllocError, Global};
use std::collections::BTreeMap;

pub type Folder = BTreeMap<Name, Vec<u8>>;

/// Writes over a file's bytes from a place on, and past its end. A refused growth changes nothing.
pub(crate) fn overwrite(file: &mut Vec<u8>, at: usize, bytes: &[u8]) -> Result<(), AllocError>
    requires { at ≤ length file.old.items }
    ensures ok { OnOk result (file.new.items ≡ overwritten file.old.items at bytes.now) }
    ensures err { OnErr result (file.new.items ≡ file.old.items) }
{
    let inside = bytes.len().min(file.len() - at);
    file.extend_from_slice(&bytes[inside..])?;
    file[at..at + inside].copy_from_slice(&bytes[..inside]);
    Ok(())
}

/// Writes over a file that is there, where memory suffices; else nothing changes.
pub fn write(files: &mut Folder, name: Name, at: u64, bytes: &[u8]) -> Result<(), AllocError>
    requires { IfThere (bytes_of files.old name) (λ old. at ≤ length old) }
    ensures ok { OnOk result
        (Becomes name (option_map (λ old. overwritten old at bytes.now) (bytes_of files.old name)) (bytes_of files.old)
        (bytes_of files.new)) }
    ensures err { OnErr result (SameFiles (bytes_of files.old) (bytes_of files.new)) }
{
    match files.get_mut(&name) {
        Some(file) => overwrite(file, at as usize, bytes),
        None => Ok(()),
    }
}

/// Cuts a file that is there to a length.
pub fn cut(files: &mut Folder, name: Name, len: u64)
    ensures { Becomes name (option_map (λ old. take len old) (bytes_of files.old name)) (bytes_of files.old)
        (bytes_of files.new) }
{
    if let Some(file) = files.get_mut(&name) {
        file.truncate(len as usize);
    }
}

/// Makes an empty file, where memory suffices; else nothing changes.
pub fn create(files: &mut Folder, alloc: Global, name: Name) -> Result<(), AllocError>
    ensures ok { OnOk result (Becomes name (Some []) (bytes_of files.old) (bytes_of files.new)) }
    ensures err { OnErr result (SameFiles (bytes_of files.old) (bytes_of files.new)) }
{
    files.insert(name, Vec::new(alloc))?;
    Ok(())
}

/// Removes a file.
pub fn remove(files: &mut Folder, name: Name)
    ensures { Becomes name None (bytes_of files.old) (bytes_of files.new) }
{
    files.remove(&name);
}

/// Puts a file with these bytes there.
pub fn load(files: &mut Folder, alloc: Global, name: Name, bytes: &[u8]) -> Result<(), AllocError>
    ensures ok { OnOk result (Becomes name (Some bytes.now) (bytes_of files.old) (bytes_of files.new)) }
    ensures err { OnErr result (SameFiles (bytes_of files.old) (bytes_of files.new)) }
{
    files.insert(name, bytes.to_vec(alloc)?)?;
    Ok(())
}

/// The names, in order.
pub fn names(files: &Folder, alloc: Global) -> Result<Vec<Name>, AllocError>
    ensures names { IfOk result (λ names. names.items ≡ keys files.now) }
    ensures ordered { IsOrdered name_cmp files.now }
{
    files.keys().copied().collect(alloc)
}
