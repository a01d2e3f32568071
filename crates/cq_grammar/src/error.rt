// Why a part of a line wasn't read.
use crate::Why;
use std::alloc::AllocError;

/// Why a part of a line wasn't read.
#[derive(Clone, Copy, Debug, PartialEq, Eq)]
pub enum LineError {
    Memory,
    Bad(Why),
}

impl From<AllocError> for LineError {
    ghost use Rattle.std.specs.Prelude.{◌≡◌};
    ghost use Rattle.cq_grammar.specs.declared.error.LineError.TheVariants.{Memory};

    ghost from_gives = { λ _ e. e ≡ Memory };

    fn from(_: AllocError) -> Self {
        LineError::Memory
    }
}

impl From<Why> for LineError {
    ghost use Rattle.std.specs.Prelude.{◌≡◌};
    ghost use Rattle.cq_grammar.specs.declared.error.LineError.TheVariants.{Bad};

    ghost from_gives = { λ w e. e ≡ Bad w };

    fn from(reason: Why) -> Self {
        LineError::Bad(reason)
    }
}
