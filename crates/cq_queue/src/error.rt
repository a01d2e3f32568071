// Why a call on a queue's files fails.
ghost use Rattle.std.specs.Prelude.{◌≡◌};

use cq_disk::{Fault, Name};
use std::alloc::{AllocError, AllocFailed};
use thiserror::Error;

/// Why a call on a queue's files fails.
#[derive(Clone, Copy, Debug, PartialEq, Eq, Error)]
pub enum QueueError {
    /// The device failed.
    #[error("the device failed")]
    Fault,
    /// There is no memory; nothing has changed.
    #[error("there is no memory for the queue")]
    Memory,
    /// An entry that was read isn't of the form, or its record lies outside of its small store: the file, the place of the
    /// first byte that is wrong, and that byte. It never comes where the disk tells its files.
    #[error("byte {1} of {0:?} is {2}, which breaks the form")]
    Damaged(Name, u64, u8),
}

impl From<Fault> for QueueError {
    ghost use Rattle.cq_queue.specs.declared.error.QueueError.TheVariants.{Fault as queue_fault};

    ghost from_gives = { λ _ made. made ≡ queue_fault };

    fn from(_fault: Fault) -> QueueError {
        QueueError::Fault
    }
}

impl<T: Drop> From<AllocFailed<T>> for QueueError {
    ghost use Rattle.cq_queue.specs.declared.error.QueueError.TheVariants.{Memory};

    ghost from_gives = { λ _ made. made ≡ Memory };

    fn from(_refused: AllocFailed<T>) -> QueueError {
        QueueError::Memory
    }
}

impl From<AllocError> for QueueError {
    ghost use Rattle.cq_queue.specs.declared.error.QueueError.TheVariants.{Memory};

    ghost from_gives = { λ _ made. made ≡ Memory };

    fn from(_refused: AllocError) -> QueueError {
        QueueError::Memory
    }
}
