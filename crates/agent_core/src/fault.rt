//! Why an agent prepares nothing, or takes no draft.

ghost use Rattle.std.specs.Prelude.{◌≡◌};
ghost use Rattle.agent_core.specs.declared.fault.AgentFault.TheVariants.{OutOfMemory, Refused};

use messages::AgentRefusal;
use std::alloc::{AllocError, AllocFailed};
use thiserror::Error;

#[derive(Clone, Copy, Debug, Drop, PartialEq, Eq, Error)]
pub enum AgentFault {
    /// The agent doesn't act on the cause, as its refusal says: `A1` to `A6`, `A9` or `A10`.
    #[error("{0}")]
    Refused(AgentRefusal),
    /// The agent isn't what it was when the draft was prepared.
    #[error("A7 StaleDraft")]
    StaleDraft,
    /// Memory ran out.
    #[error("A8 OutOfMemory")]
    OutOfMemory,
}

impl From<AgentRefusal> for AgentFault {
    ghost from_gives = { λ refusal e. e ≡ Refused refusal };

    fn from(refusal: AgentRefusal) -> AgentFault {
        AgentFault::Refused(refusal)
    }
}

impl From<AllocError> for AgentFault {
    ghost from_gives = { λ _ e. e ≡ OutOfMemory };

    fn from(_e: AllocError) -> AgentFault {
        AgentFault::OutOfMemory
    }
}

impl<T: Drop> From<AllocFailed<T>> for AgentFault {
    ghost from_gives = { λ _ e. e ≡ OutOfMemory };

    fn from(_e: AllocFailed<T>) -> AgentFault {
        AgentFault::OutOfMemory
    }
}
