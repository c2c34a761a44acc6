//! Why a cluster isn't served.

ghost use Rattle.std.specs.Prelude.{◌≡◌};
ghost use Rattle.mesos_node.specs.Refusals.{is_refusal, is_unlike};
ghost use Rattle.mesos_node.specs.declared.fault.ServeFault.TheVariants.{Agents, Folder, Memory};

use keep_folder::FolderFault;
use serving::ServingFault;
use std::alloc::AllocError;
use std::{fmt, io};
use step_text::{AgentsFault, RefusedFile};

/// Whether the text of the file of the agents isn't as it is to be.
fn is_unlike(fault: &AgentsFault) -> bool
    ensures { result ≡ is_unlike fault.now }
{
    matches!(fault, AgentsFault::Lines | AgentsFault::Config)
}

/// Why a cluster isn't served, or stops being served.
#[derive(Drop)]
pub(crate) enum ServeFault {
    Agents(RefusedFile),
    Folder(FolderFault),
    /// `Z2 DeviceFault`: the port can't be had.
    Port { port: u16, error: io::Error },
    Serving(ServingFault),
    /// `Z2 DeviceFault`: the table at the end can't be written.
    Output(io::Error),
    /// Memory ran out before the cluster was open, or after its end.
    Memory,
}

impl ServeFault {
    /// Whether the input is refused, and no store, port, thread or memory failed.
    pub(crate) fn is_refusal(&self) -> bool
        ensures { result ≡ is_refusal self.now }
    {
        match self {
            ServeFault::Agents(refused) => is_unlike(&refused.fault),
            ServeFault::Folder(FolderFault::TotalDiffers { .. }) => true,
            _ => false,
        }
    }
}

impl From<AllocError> for ServeFault {
    ghost from_gives = { λ _ fault. fault ≡ Memory };

    fn from(_e: AllocError) -> ServeFault {
        ServeFault::Memory
    }
}

impl From<RefusedFile> for ServeFault {
    ghost from_gives = { λ agents fault. fault ≡ Agents agents };

    fn from(refused: RefusedFile) -> ServeFault {
        ServeFault::Agents(refused)
    }
}

impl From<FolderFault> for ServeFault {
    ghost from_gives = { λ folder fault. fault ≡ Folder folder };

    fn from(fault: FolderFault) -> ServeFault {
        ServeFault::Folder(fault)
    }
}

impl fmt::Display for ServeFault {
    fn fmt<W: fmt::Write>(&self, f: &mut fmt::Formatter<W>) -> fmt::Result {
        match self {
            ServeFault::Agents(fault) => write!(f, "{fault}"),
            ServeFault::Folder(fault) => write!(f, "{fault}"),
            ServeFault::Port { port, error } => {
                let port = *port;
                write!(f, "Z2 DeviceFault: port {port}: {error}")
            }
            ServeFault::Serving(fault) => write!(f, "{fault}"),
            ServeFault::Output(error) => write!(f, "Z2 DeviceFault: {error}"),
            ServeFault::Memory => f.write_str("C9 OutOfMemory"),
        }
    }
}
