// Why the files of a queue can't be opened.
ghost use Rattle.std.specs.Prelude.{◌≡◌};

use cq_disk::{DiskError, Fault, Name};
use std::alloc::{AllocError, AllocFailed};
use thiserror::Error;

/// Why the files of a queue can't be opened.
#[derive(Clone, Copy, Debug, PartialEq, Eq, Error)]
pub enum BackError {
    /// The device failed.
    #[error("the device failed")]
    Fault,
    /// There is no memory for what the files hold.
    #[error("there is no memory for what the files hold")]
    Memory,
    /// A file isn't of the form, or doesn't fit the others.
    #[error("byte {place} of {name:?} is {found}, which breaks the form or doesn't fit the other files")]
    Damaged {
        /// The file.
        name: Name,
        /// The place in the file of the first byte that is wrong.
        place: u64,
        /// The byte that stands there.
        found: u8,
    },
}

impl From<Fault> for BackError {
    ghost use Rattle.cq_back_q.specs.declared.error.BackError.TheVariants.{Fault as back_fault};

    ghost from_gives = { λ _ made. made ≡ back_fault };

    fn from(_fault: Fault) -> BackError {
        BackError::Fault
    }
}

impl<T: Drop> From<AllocFailed<T>> for BackError {
    ghost use Rattle.cq_back_q.specs.declared.error.BackError.TheVariants.{Memory};

    ghost from_gives = { λ _ made. made ≡ Memory };

    fn from(_refused: AllocFailed<T>) -> BackError {
        BackError::Memory
    }
}

impl From<AllocError> for BackError {
    ghost use Rattle.cq_back_q.specs.declared.error.BackError.TheVariants.{Memory};

    ghost from_gives = { λ _ made. made ≡ Memory };

    fn from(_refused: AllocError) -> BackError {
        BackError::Memory
    }
}
