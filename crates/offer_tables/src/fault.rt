//! Why a book refuses.

ghost use Rattle.std.specs.Prelude.{◌≡◌};
ghost use Rattle.offer_tables.specs.declared.fault.BookFault.TheVariants.{OutOfMemory};

use std::alloc::{AllocError, AllocFailed};
use thiserror::Error;

#[derive(Clone, Copy, Debug, Drop, PartialEq, Eq, Error)]
pub enum BookFault {
    /// No agent of this name is in, no offer of this id is current,
    /// or no task of this key is booked.
    #[error("B1 Unknown")]
    Unknown,
    /// An agent's total has no room for what is asked for.
    #[error("B2 NoRoom")]
    NoRoom,
    /// The agent is in already, the offer's id is that of a current one,
    /// or the task's key that of a booked one.
    #[error("B3 Twice")]
    Twice,
    /// Memory was refused.
    #[error("B4 OutOfMemory")]
    OutOfMemory,
}

impl From<AllocError> for BookFault {
    ghost from_gives = { λ _ fault. fault ≡ OutOfMemory };

    fn from(_: AllocError) -> BookFault {
        BookFault::OutOfMemory
    }
}

impl<T: Drop> From<AllocFailed<T>> for BookFault {
    ghost from_gives = { λ _ fault. fault ≡ OutOfMemory };

    fn from(_: AllocFailed<T>) -> BookFault {
        BookFault::OutOfMemory
    }
}
