//! What a link or the updates of a task refuse.

ghost use Rattle.std.specs.Prelude.{◌≡◌};
ghost use Rattle.stream_core.specs.declared.fault.TaskLinkFault.TheVariants.{OutOfMemory};

use std::alloc::{AllocError, AllocFailed};
use thiserror::Error;

#[derive(Clone, Copy, Debug, Drop, PartialEq, Eq, Error)]
pub enum TaskLinkFault {
    /// The command isn't the next one.
    #[error("L1 NotNext")]
    NotNext,
    /// The number is at its last value.
    #[error("L2 Spent")]
    Spent,
    /// The update isn't the first one that isn't acknowledged.
    #[error("U1 NotFront")]
    NotFront,
    /// The task has a terminal state.
    #[error("U2 Closed")]
    Closed,
    /// Only a terminal state has room.
    #[error("U3 Full")]
    Full,
    /// Memory ran out.
    #[error("U4 OutOfMemory")]
    OutOfMemory,
}

impl From<AllocError> for TaskLinkFault {
    ghost from_gives = { λ _ e. e ≡ OutOfMemory };

    fn from(_e: AllocError) -> TaskLinkFault {
        TaskLinkFault::OutOfMemory
    }
}

impl<T: Drop> From<AllocFailed<T>> for TaskLinkFault {
    ghost from_gives = { λ _ e. e ≡ OutOfMemory };

    fn from(_e: AllocFailed<T>) -> TaskLinkFault {
        TaskLinkFault::OutOfMemory
    }
}
