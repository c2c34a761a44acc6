//! What ends a history before its last line.

use std::alloc::AllocError;
use std::io;
use step_text::{LineFault, LineRefusal};
use thiserror::Error;

/// Why a history came to no end.
#[derive(Debug, Drop, Error)]
pub(crate) enum Stop {
    /// The line is no step, or the first is no configuration.
    #[error("{0}")]
    Line(LineRefusal),
    /// Memory was refused to anything but a step.
    #[error("C9 OutOfMemory")]
    Memory,
    /// Standard input or output failed.
    #[error("Z2 DeviceFault: {0}")]
    Device(io::Error),
}

impl Stop {
    /// Its exit status.
    pub(crate) fn status(&self) -> u8 {
        match self {
            Stop::Line(_) => 2,
            _ => 3,
        }
    }
}

impl From<AllocError> for Stop {
    fn from(_e: AllocError) -> Stop {
        Stop::Memory
    }
}

impl From<io::Error> for Stop {
    fn from(e: io::Error) -> Stop {
        Stop::Device(e)
    }
}

impl From<LineFault> for Stop {
    fn from(fault: LineFault) -> Stop {
        match fault {
            LineFault::OutOfMemory => Stop::Memory,
            LineFault::Refused(refusal) => Stop::Line(refusal),
        }
    }
}
