// Why a body can't be read.
ghost use Rattle.std.specs.Prelude.{◌≡◌};

use cq_disk::Fault;
use std::alloc::{AllocError, AllocFailed};
use thiserror::Error;

/// Why a body can't be read.
#[derive(Clone, Copy, Debug, PartialEq, Eq, Error)]
pub enum BodyError {
    /// The device failed.
    #[error("the device failed")]
    Fault,
    /// There is no memory for the body or for what is read with it.
    #[error("there is no memory for a body")]
    Memory,
}

impl From<Fault> for BodyError {
    ghost use Rattle.cq_bulk.specs.declared.error.BodyError.TheVariants.{Fault as body_fault};

    ghost from_gives = { λ _ made. made ≡ body_fault };

    fn from(_fault: Fault) -> BodyError {
        BodyError::Fault
    }
}

impl<T: Drop> From<AllocFailed<T>> for BodyError {
    ghost use Rattle.cq_bulk.specs.declared.error.BodyError.TheVariants.{Memory};

    ghost from_gives = { λ _ made. made ≡ Memory };

    fn from(_refused: AllocFailed<T>) -> BodyError {
        BodyError::Memory
    }
}

impl From<AllocError> for BodyError {
    ghost use Rattle.cq_bulk.specs.declared.error.BodyError.TheVariants.{Memory};

    ghost from_gives = { λ _ made. made ≡ Memory };

    fn from(_refused: AllocError) -> BodyError {
        BodyError::Memory
    }
}
