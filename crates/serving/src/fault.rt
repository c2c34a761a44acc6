//! Why a cluster stops running.

use desk_agents::ActivityFault;
use desk_core::ClusterFault;
use desk_lock::OfficeFault;
use http_serve::HttpFault;
use keep_store::KeepFault;
use names_core::AgentName;
use std::fmt;

/// Why a cluster stops running before its last connection was taken.
/// What was answered by then stays valid.
#[derive(Drop)]
pub enum ServingFault {
    /// An agent's record couldn't be kept: never where the pace is to keep serving.
    Agent {
        agent: AgentName,
        fault: ActivityFault<KeepFault>,
    },
    /// A thread or memory was refused: `H8 OutOfMemory` or `H9 NoThread`.
    Http(HttpFault),
    /// `H8 OutOfMemory`: the process has as many MiB as it may have.
    Memory(u64),
    /// The office refused a seat, or its close.
    Office(OfficeFault<ClusterFault>),
}

impl fmt::Display for ServingFault {
    fn fmt<W: fmt::Write>(&self, f: &mut fmt::Formatter<W>) -> fmt::Result {
        match self {
            ServingFault::Agent { agent, fault } => {
                let agent = agent.as_text();
                write!(f, "{fault}: the record of {agent}")
            }
            ServingFault::Http(fault) => {
                let fault = *fault;
                write!(f, "{fault}")
            }
            ServingFault::Memory(limit) => {
                let (fault, limit) = (HttpFault::OutOfMemory, *limit);
                write!(
                    f,
                    "{fault}: the server has the {limit} MiB that --memory allows"
                )
            }
            ServingFault::Office(fault) => {
                let fault = *fault;
                write!(f, "{fault}")
            }
        }
    }
}
