//! What ends a replay.

use std::{fmt, io};
use step_text::LineRefusal;
use thiserror::Error;

/// The line that ended a replay, from 1, and what is wrong with it.
#[derive(Clone, Copy, Debug)]
pub struct LineStop {
    pub line: u64,
    pub refusal: LineRefusal,
}

impl fmt::Display for LineStop {
    fn fmt<W: fmt::Write>(&self, f: &mut fmt::Formatter<W>) -> fmt::Result {
        let line = self.line;
        let refusal = self.refusal;
        write!(f, "{line} {refusal}")
    }
}

/// Why a replay came to no end. What was written by then is a beginning of what was due.
#[derive(Debug, Drop, Error)]
pub enum ReplayStop {
    /// Memory was refused on this line, from 1: to read it, to take its step or to write its
    /// answer. At the end of the input it is the line after the last.
    #[error("{line} C9 OutOfMemory")]
    Memory { line: u64 },
    /// Standard input or output failed.
    #[error("Z2 DeviceFault: {0}")]
    Device(io::Error),
}
