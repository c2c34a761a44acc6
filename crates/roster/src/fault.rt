//! Why the roster refuses.

ghost use Rattle.std.specs.Prelude.{◌≡◌};
ghost use Rattle.roster.specs.declared.fault.RosterFault.TheVariants.{Refused, OutOfMemory};

use messages::MasterRefusal;
use std::alloc::{AllocError, AllocFailed};
use thiserror::Error;

#[derive(Clone, Copy, Debug, Drop, PartialEq, Eq, Error)]
pub enum RosterFault {
    /// The mail isn't of the open session: `G2 OldSession`, `G3 Closed` or `G4 NotOpen`.
    #[error("{0}")]
    Refused(MasterRefusal),
    /// The last command of the session has the last number.
    #[error("L2 Spent")]
    Spent,
    /// Memory was refused.
    #[error("G5 OutOfMemory")]
    OutOfMemory,
}

impl From<AllocError> for RosterFault {
    ghost from_gives = { λ _ fault. fault ≡ OutOfMemory };

    fn from(_: AllocError) -> RosterFault {
        RosterFault::OutOfMemory
    }
}

impl<T: Drop> From<AllocFailed<T>> for RosterFault {
    ghost from_gives = { λ _ fault. fault ≡ OutOfMemory };

    fn from(_: AllocFailed<T>) -> RosterFault {
        RosterFault::OutOfMemory
    }
}
