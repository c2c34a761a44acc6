//! Why a call on resources is refused.

ghost use Rattle.std.specs.Prelude.{◌≡◌};
ghost use Rattle.quantity.specs.declared.fault.QuantityFault.TheVariants.{OutOfMemory};

use std::alloc::{AllocError, AllocFailed};
use thiserror::Error;

#[derive(Clone, Copy, Debug, PartialEq, Eq, Error)]
pub enum QuantityFault {
    /// Memory was refused.
    #[error("Q1 OutOfMemory")]
    OutOfMemory,
    /// An amount or a sum is over 2^40.
    #[error("Q2 TooLarge")]
    TooLarge,
    /// More is to be taken of a name than there is.
    #[error("Q3 NotCovered")]
    NotCovered,
    /// There would be more than eight names.
    #[error("Q4 TooManyNames")]
    TooManyNames,
    /// The text is no name of a resource.
    #[error("Q5 BadName")]
    BadName,
}

impl From<AllocError> for QuantityFault {
    ghost from_gives = { λ _ fault. fault ≡ OutOfMemory };

    fn from(_: AllocError) -> QuantityFault {
        QuantityFault::OutOfMemory
    }
}

impl<T: Drop> From<AllocFailed<T>> for QuantityFault {
    ghost from_gives = { λ _ fault. fault ≡ OutOfMemory };

    fn from(_: AllocFailed<T>) -> QuantityFault {
        QuantityFault::OutOfMemory
    }
}
