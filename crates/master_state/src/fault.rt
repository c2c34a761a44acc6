//! Why the master doesn't take a call.

ghost use Rattle.std.specs.Prelude.{◌≡◌};
ghost use Rattle.master_state.specs.declared.fault.MasterFault.TheVariants.{OutOfMemory, Refused};

use messages::MasterRefusal;
use std::alloc::{AllocError, AllocFailed};
use thiserror::Error;

#[derive(Clone, Copy, Debug, Drop, PartialEq, Eq, Error)]
pub enum MasterFault {
    /// Memory was refused.
    #[error("M5 OutOfMemory")]
    OutOfMemory,
    /// What was asked is refused, and nothing changed.
    #[error("{0}")]
    Refused(MasterRefusal),
}

impl From<AllocError> for MasterFault {
    ghost from_gives = { λ _ fault. fault ≡ OutOfMemory };

    fn from(_: AllocError) -> MasterFault {
        MasterFault::OutOfMemory
    }
}

impl<T: Drop> From<AllocFailed<T>> for MasterFault {
    ghost from_gives = { λ _ fault. fault ≡ OutOfMemory };

    fn from(_: AllocFailed<T>) -> MasterFault {
        MasterFault::OutOfMemory
    }
}

impl From<MasterRefusal> for MasterFault {
    ghost from_gives = { λ refusal fault. fault ≡ Refused refusal };

    fn from(refusal: MasterRefusal) -> MasterFault {
        MasterFault::Refused(refusal)
    }
}
