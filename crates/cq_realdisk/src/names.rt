// The texts of names, by which the files of a folder go.
ghost use Rattle.std.specs.Prelude.{◌≡◌, ◌++◌, codes, string_bytes, IfOk, IfSome, IsTrue, ◌↔◌};
ghost use Rattle.std.specs.Fmt.{decimal};
ghost use Rattle.cq_realdisk.specs.Names.{name_text, IsNamed};

use cq_disk::{Kind, Name};
use std::alloc::{AllocError, Global};

/// The text of a name.
fn text_of(alloc: Global, name: Name) -> Result<String, AllocError>
    ensures { IfOk result (λ text. string_bytes text ≡ name_text name) }
{
    match name.kind {
        Kind::Index => index_text(alloc, name.queue, name.number),
        Kind::Small => small_text(alloc, name.queue, name.number),
        Kind::Shared => shared_text(alloc, name.number),
    }
}

/// The text of an index's name.
fn index_text(alloc: Global, queue: u32, number: u64) -> Result<String, AllocError>
    ensures { IfOk result (λ text. string_bytes text
        ≡ codes "q" ++ decimal queue ++ codes "-" ++ decimal number ++ codes ".qi") }
{
    Ok(format!(in alloc; "q{queue}-{number}.qi")?)
}

/// The text of a small store's name.
fn small_text(alloc: Global, queue: u32, number: u64) -> Result<String, AllocError>
    ensures { IfOk result (λ text. string_bytes text
        ≡ codes "q" ++ decimal queue ++ codes "-" ++ decimal number ++ codes ".qs") }
{
    Ok(format!(in alloc; "q{queue}-{number}.qs")?)
}

/// The text of a shared file's name.
fn shared_text(alloc: Global, number: u64) -> Result<String, AllocError>
    ensures { IfOk result (λ text. string_bytes text ≡ decimal number ++ codes ".rdq") }
{
    format!(in alloc; "{number}.rdq")
}

/// The path of a file of this name in a folder.
pub(crate) fn path_of(alloc: Global, folder: &str, name: Name) -> Result<String, AllocError>
    ensures { IfOk result (λ path. string_bytes path ≡ folder.now ++ codes "/" ++ name_text name) }
{
    let text = text_of(alloc, name)?;
    format!(in alloc; "{folder}/{text}")
}

/// The name whose text this is, where a file can have it.
pub(crate) fn name_of(alloc: Global, text: &str) -> Result<Option<Name>, AllocError>
    ensures { IfOk result (λ found. IfSome found (λ name. IsNamed name text.now)) }
{
    let Some(name) = read_name(text) else {
        return Ok(None);
    };
    let spelled = text_of(alloc, name)?;
    if name.is_in_range() && spelled.as_str() == text {
        Ok(Some(name))
    } else {
        Ok(None)
    }
}

/// The only name that can have this text, however its numbers are spelled.
fn read_name(text: &str) -> Option<Name> {
    let (stem, extension) = text.rsplit_once('.')?;
    match extension {
        "qi" => queue_name(Kind::Index, stem),
        "qs" => queue_name(Kind::Small, stem),
        "rdq" => Some(Name {
            kind: Kind::Shared,
            queue: 0,
            number: stem.parse().ok()?,
        }),
        _ => None,
    }
}

/// The name of a queue's file, of its text without the extension.
fn queue_name(kind: Kind, stem: &str) -> Option<Name> {
    let (queue, number) = stem.strip_prefix("q")?.split_once('-')?;
    Some(Name {
        kind,
        queue: queue.parse().ok()?,
        number: number.parse().ok()?,
    })
}
