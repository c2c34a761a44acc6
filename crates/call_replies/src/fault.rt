//! What ends the program's work before its input ends.

use std::io;
use thiserror::Error;

/// Why the work stopped. What was written by then is a beginning of what was due.
#[derive(Debug, Drop, Error)]
pub enum Stop {
    /// Memory ran out where a call was read.
    #[error("J10 OutOfMemory")]
    CallMemory,
    /// Memory ran out in the master, or where an event was written.
    #[error("M5 OutOfMemory")]
    MasterMemory,
    /// Memory ran out where a frame was read.
    #[error("F4 OutOfMemory")]
    FrameMemory,
    /// Standard input or output failed.
    #[error("Z2 DeviceFault: {0}")]
    Device(io::Error),
}
