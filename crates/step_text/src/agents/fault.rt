//! Why a file says no agents.

use std::{fmt, io};

/// The message for a line that is no configuration.
const WANTED_LINE: &str =
    "X3 BadConfig: the line of the file of the agents is to be as {\"agents\":{\"a1\":{\"cpus\":4,\"mem\":4096}},\"weights\":{\"prod\":2}}, with 1 to 256 agents, names of 1 to 64 ASCII letters, digits, -, _ and ., and up to 8 amounts for each, whole numbers from 1 to 2^40; weights may lack, and names up to 4096 roles, each with a whole number from 1 to 1000";

/// Why the agents that a file says can't be had.
#[derive(Drop)]
pub enum AgentsFault {
    /// `Z2 DeviceFault`: the file can't be read.
    File(io::Error),
    /// `X3 BadConfig`: the file isn't one line.
    Lines,
    /// `X3 BadConfig`: the one line of the file is no configuration.
    Config,
    /// `C9 OutOfMemory`: memory ran out before the line was judged.
    Memory,
}

impl fmt::Display for AgentsFault {
    fn fmt<W: fmt::Write>(&self, f: &mut fmt::Formatter<W>) -> fmt::Result {
        match self {
            AgentsFault::File(error) => write!(
                f,
                "Z2 DeviceFault: the file of the agents: {error}"
            ),
            AgentsFault::Lines => f.write_str(
                "X3 BadConfig: the file of the agents is to be one line",
            ),
            AgentsFault::Config => f.write_str(WANTED_LINE),
            AgentsFault::Memory => f.write_str("C9 OutOfMemory"),
        }
    }
}
