//! Why a step isn't taken.

ghost use Rattle.std.specs.Prelude.{◌≡◌, ◌≤◌, length, Some};
ghost use Rattle.messages.specs.Faults.{fault_text};
ghost use Rattle.messages.specs.declared.steps.fault.ClusterFault.TheVariants.{OutOfMemory};

use std::alloc::AllocError;
use std::error::Error;
use std::fmt;

/// Why a step is no entry of the history. Nothing changed.
#[derive(Clone, Copy, Debug, Drop, PartialEq, Eq)]
pub enum ClusterFault {
    /// No such call or mail was sent, or it can't be delivered, or it isn't for this receiver;
    /// no such stream was opened, or nothing is left to take of it.
    NoSuchMail,
    /// The master is down.
    MasterDown,
    /// The agent is down.
    AgentDown,
    /// The agent has an open draft.
    DraftOpen,
    /// The agent has no open draft.
    NoDraft,
    /// The history has 4,294,967,295 entries.
    HistoryFull,
    /// The moment is before the last one.
    TimeBack,
    /// No agent of this name is configured.
    NoSuchAgent,
    /// Memory was refused.
    OutOfMemory,
}

impl ClusterFault {
    /// Its code and name, as `C2 MasterDown`.
    #[tactic(auto, unfolding(crate::specs::Faults::fault_text))]
    pub fn as_text(&self) -> &'static str
        ensures text { result.now ≡ fault_text self.now }
        ensures short { length result.now ≤ 255 }
    {
        match self {
            ClusterFault::NoSuchMail => "C1 NoSuchMail",
            ClusterFault::MasterDown => "C2 MasterDown",
            ClusterFault::AgentDown => "C3 AgentDown",
            ClusterFault::DraftOpen => "C4 DraftOpen",
            ClusterFault::NoDraft => "C5 NoDraft",
            ClusterFault::HistoryFull => "C6 HistoryFull",
            ClusterFault::TimeBack => "C7 TimeBack",
            ClusterFault::NoSuchAgent => "C8 NoSuchAgent",
            ClusterFault::OutOfMemory => "C9 OutOfMemory",
        }
    }
}

impl fmt::Display for ClusterFault {
    ghost output = { λ fault. Some (fault_text fault) };

    fn fmt<W: fmt::Write>(&self, f: &mut fmt::Formatter<W>) -> fmt::Result {
        f.write_str(self.as_text())
    }
}

impl Error for ClusterFault {}

impl From<AllocError> for ClusterFault {
    ghost from_gives = { λ _ e. e ≡ OutOfMemory };

    fn from(_e: AllocError) -> ClusterFault {
        ClusterFault::OutOfMemory
    }
}
