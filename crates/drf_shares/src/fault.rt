//! Why shares refuse.

ghost use Rattle.std.specs.Prelude.{◌≡◌};
ghost use Rattle.drf_shares.specs.declared.fault.SharesFault.TheVariants.{OutOfMemory};

use std::alloc::{AllocError, AllocFailed};
use thiserror::Error;

#[derive(Clone, Copy, Debug, Drop, PartialEq, Eq, Error)]
pub enum SharesFault {
    /// More is to be taken away than is there.
    #[error("P1 NotHeld")]
    NotHeld,
    /// Memory was refused.
    #[error("P2 OutOfMemory")]
    OutOfMemory,
}

impl From<AllocError> for SharesFault {
    ghost from_gives = { λ _ fault. fault ≡ OutOfMemory };

    fn from(_: AllocError) -> SharesFault {
        SharesFault::OutOfMemory
    }
}

impl<T: Drop> From<AllocFailed<T>> for SharesFault {
    ghost from_gives = { λ _ fault. fault ≡ OutOfMemory };

    fn from(_: AllocFailed<T>) -> SharesFault {
        SharesFault::OutOfMemory
    }
}
