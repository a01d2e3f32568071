// Why a shared file can't be opened, or its records listed.
ghost use Rattle.std.specs.Prelude.{◌≡◌};

use cq_block::BlockError;
use cq_disk::Fault;
use cq_gate::GateError;
use std::alloc::AllocError;
use thiserror::Error;

/// Why a shared file can't be opened, or its records listed.
#[derive(Clone, Copy, Debug, PartialEq, Eq, Error)]
pub enum RdqError {
    /// The device failed.
    #[error("the device failed")]
    Fault,
    /// There is no memory for what the file holds.
    #[error("there is no memory for what the file holds")]
    Memory,
    /// The file isn't of the form.
    #[error("byte {place} is {found}, which breaks the form")]
    Damaged {
        /// The place in the file of the first byte that is wrong.
        place: u64,
        /// The byte that stands there.
        found: u8,
    },
}

impl From<Fault> for RdqError {
    ghost use Rattle.cq_rdq.specs.declared.error.RdqError.TheVariants.{Fault as rdq_fault};

    ghost from_gives = { λ _ made. made ≡ rdq_fault };

    fn from(_fault: Fault) -> RdqError {
        RdqError::Fault
    }
}

impl From<GateError> for RdqError {
    ghost use Rattle.cq_rdq.specs.Errors.{of_gate};

    ghost from_gives = { λ error made. made ≡ of_gate error };

    fn from(error: GateError) -> RdqError {
        match error {
            GateError::Fault => RdqError::Fault,
            GateError::Damaged { place, found } => RdqError::Damaged { place, found },
        }
    }
}

impl From<BlockError> for RdqError {
    ghost use Rattle.cq_rdq.specs.Errors.{of_block};

    ghost from_gives = { λ error made. made ≡ of_block error };

    fn from(error: BlockError) -> RdqError {
        match error {
            BlockError::Memory => RdqError::Memory,
            BlockError::Broken { place, found } => RdqError::Damaged { place, found },
        }
    }
}

impl From<AllocError> for RdqError {
    ghost use Rattle.cq_rdq.specs.declared.error.RdqError.TheVariants.{Memory};

    ghost from_gives = { λ _ made. made ≡ Memory };

    fn from(_refused: AllocError) -> RdqError {
        RdqError::Memory
    }
}
