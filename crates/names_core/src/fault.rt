//! Why a text is no name and no id.

ghost use Rattle.std.specs.Prelude.{◌≡◌};
ghost use Rattle.names_core.specs.declared.fault.NameFault.TheVariants.{OutOfMemory};

use std::alloc::AllocError;
use thiserror::Error;

#[derive(Clone, Copy, Debug, Drop, PartialEq, Eq, Error)]
pub enum NameFault {
    /// The text is empty, too long, or has a byte that such a name may not have.
    #[error("N1 BadName")]
    BadName,
    /// The text is no id in its one written form.
    #[error("N2 BadId")]
    BadId,
    /// Memory ran out.
    #[error("N3 OutOfMemory")]
    OutOfMemory,
}

impl From<AllocError> for NameFault {
    ghost from_gives = { λ _ e. e ≡ OutOfMemory };

    fn from(_e: AllocError) -> NameFault {
        NameFault::OutOfMemory
    }
}
