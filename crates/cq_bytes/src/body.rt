// The bytes of a message.
ghost use Rattle.std.specs.Prelude.{◌≡◌, ◌≤◌, length, vec_len, IfOk};

use std::alloc::{AllocError, Global};
use std::marker::Model;

/// The bytes of a message, at most 1,048,576. A contract sees it as their list.
#[derive(Clone, Debug, Drop)]
pub struct Body {
    bytes: Vec<u8>,
}

impl Model for Body {
    ghost use Rattle.std.specs.Prelude.{List, ℕ, ◌≤◌, length};

    ghost Value = { List ℕ };

    ghost view = { λ b. b.bytes.items };

    ghost invariant = { λ b. length b.bytes.items ≤ 1048576 };
}

impl Body {
    /// How many bytes a body may have.
    pub const MOST_BYTES: usize = 1_048_576;

    /// A body with a copy of these bytes.
    pub fn copy(alloc: Global, bytes: &[u8]) -> Result<Body, AllocError>
        requires { length bytes.now ≤ 1048576 }
        ensures { IfOk result (λ body. body ≡ bytes.now) }
    {
        Ok(Body {
            bytes: bytes.to_vec(alloc)?,
        })
    }

    /// A body of these bytes. It takes no memory.
    pub fn from_vec(bytes: Vec<u8>) -> Body
        requires { vec_len bytes ≤ 1048576 }
        ensures { result ≡ bytes.items }
    {
        Body { bytes }
    }

    /// The bytes.
    pub fn bytes(&self) -> &[u8]
        ensures same { result.now ≡ self.now }
        ensures short { length self.now ≤ 1048576 }
    {
        &self.bytes
    }
}
