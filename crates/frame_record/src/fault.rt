//! Why a text is no list of records.

ghost use Rattle.std.specs.Prelude.{◌≡◌};
ghost use Rattle.frame_record.specs.declared.fault.FrameFault.TheVariants.{OutOfMemory};

use std::alloc::{AllocError, AllocFailed};
use thiserror::Error;

#[derive(Clone, Copy, Debug, Drop, PartialEq, Eq, Error)]
pub enum FrameFault {
    /// A size line is empty, has a byte that is no digit, has more than 20 digits,
    /// or names a number over 2^64 - 1.
    #[error("F1 BadSize")]
    BadSize,
    /// A size is over the limit.
    #[error("F2 TooLong")]
    TooLong,
    /// The stream ends inside a record or a size line.
    #[error("F3 Cut")]
    Cut,
    /// Memory ran out.
    #[error("F4 OutOfMemory")]
    OutOfMemory,
}

impl From<AllocError> for FrameFault {
    ghost from_gives = { λ _ e. e ≡ OutOfMemory };

    fn from(_e: AllocError) -> FrameFault {
        FrameFault::OutOfMemory
    }
}

impl<T: Drop> From<AllocFailed<T>> for FrameFault {
    ghost from_gives = { λ _ e. e ≡ OutOfMemory };

    fn from(_e: AllocFailed<T>) -> FrameFault {
        FrameFault::OutOfMemory
    }
}
