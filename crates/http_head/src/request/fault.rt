//! Why a connection ends early.

use thiserror::Error;

/// Why a connection ends before its requests do.
#[derive(Clone, Copy, Debug, Drop, PartialEq, Eq, Error)]
pub enum ConnectionFault {
    /// A read or a write failed, or 2^64 - 1 turns were made.
    #[error("H7 LinkFault")]
    Failed,
    /// Memory ran out.
    #[error("H8 OutOfMemory")]
    OutOfMemory,
}
