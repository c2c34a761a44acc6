//! Why a line is no step.

ghost use Rattle.std.specs.Prelude.{◌≡◌};
ghost use Rattle.step_text.specs.declared.lines.fault.LineFault.TheVariants.{OutOfMemory, Refused};

use call_json::Refusal;
use std::alloc::{AllocError, AllocFailed};
use thiserror::Error;

/// What is wrong with a line.
#[derive(Clone, Copy, Debug, Drop, PartialEq, Eq, Error)]
pub enum LineRefusal {
    /// The line has more than 1,048,576 bytes, or is no JSON, or has no form of a step.
    #[error("X1 NotAStep")]
    NotAStep,
    /// The line sends a call that doesn't read.
    #[error("X2 BadCall {0}")]
    BadCall(Refusal),
    /// The first line has no form of a configuration.
    #[error("X3 BadConfig")]
    BadConfig,
}

/// Why a line wasn't read.
#[derive(Clone, Copy, Debug, Drop, PartialEq, Eq, Error)]
pub enum LineFault {
    /// Memory ran out before the line was judged.
    #[error("X4 OutOfMemory")]
    OutOfMemory,
    #[error("{0}")]
    Refused(LineRefusal),
}

/// The line has no form of a step.
pub const NOT_A_STEP: LineFault = LineFault::Refused(LineRefusal::NotAStep);

impl From<AllocError> for LineFault {
    ghost from_gives = { λ _ e. e ≡ OutOfMemory };

    fn from(_e: AllocError) -> LineFault {
        LineFault::OutOfMemory
    }
}

impl<T: Drop> From<AllocFailed<T>> for LineFault {
    ghost from_gives = { λ _ e. e ≡ OutOfMemory };

    fn from(_e: AllocFailed<T>) -> LineFault {
        LineFault::OutOfMemory
    }
}
