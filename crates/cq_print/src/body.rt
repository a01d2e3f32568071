// How a body is shown.
ghost use Rattle.std.specs.Prelude.{◌≡◌, ◌++◌, IfOk};
ghost use Rattle.cq_print.specs.Text.{body_text};

use cq_bytes::is_text;
use sha2::{Digest, Sha256};
use std::alloc::{AllocError, Global};

/// How many bytes are shown in hexadecimal digits.
const MOST_HEX: usize = 32;

/// A body, as it is shown: `empty`; or `text` and the bytes, where there are 1 to 64 from 0x21 to 0x7e; or `hex` and
/// lower-case digits, for at most 32 other bytes; or `sha256` and the lower-case digest.
pub fn body_text(alloc: Global, body: &[u8]) -> Result<Vec<u8>, AllocError>
    ensures { IfOk result (λ text. text.items ≡ body_text body.now) }
{
    if body.is_empty() {
        return b"empty".to_vec(alloc);
    }
    if is_text(body) {
        return joined(alloc, b"text ", body);
    }
    if body.len() <= MOST_HEX {
        let digits = hex::encode(alloc, body)?;
        return joined(alloc, b"hex ", digits.as_bytes());
    }
    let digest = Sha256::digest(body);
    let digits = hex::encode(alloc, digest.as_slice())?;
    joined(alloc, b"sha256 ", digits.as_bytes())
}

/// One text after another.
fn joined(alloc: Global, front: &[u8], back: &[u8]) -> Result<Vec<u8>, AllocError>
    ensures { IfOk result (λ text. text.items ≡ front.now ++ back.now) }
{
    let mut text = front.to_vec(alloc)?;
    text.extend_from_slice(back)?;
    Ok(text)
}
