//! What agents and the master refuse.

ghost use Rattle.std.proofs.Common.{rules};
ghost use Rattle.std.specs.Prelude.{◌≡◌, ◌≤◌, length, Some};
ghost use Rattle.messages.specs.Refusals.{agent_refusal_text, master_refusal_text};

use std::error::Error;
use std::fmt;
use values::Plain;

/// Why an agent doesn't act on a cause.
#[derive(Clone, Copy, Debug, Drop, PartialEq, Eq)]
pub enum AgentRefusal {
    /// The mail is for another agent.
    NotForMe,
    /// The mail is of an older run or of another session;
    /// or the agent never opened a session and is to start one.
    OldSession,
    /// The command isn't the next one.
    NotNext,
    /// The record has no task of this key.
    NoSuchTask,
    /// The task has ended.
    Ended,
    /// The agent has no room for the task.
    NoRoom,
    /// The task has room for a terminal state only.
    UpdatesFull,
    /// The session is at its last value.
    SessionsSpent,
    /// The total that the agent is to own doesn't cover what it owns.
    TotalLess,
}

impl Plain for AgentRefusal {
    ghost cloned = { Prim.search rules };

    ghost decided = { Prim.search rules };
}

impl AgentRefusal {
    /// Its code and name, as `A4 NoSuchTask`.
    #[tactic(auto, unfolding(crate::specs::Refusals::agent_refusal_text))]
    pub fn as_text(&self) -> &'static str
        ensures text { result.now ≡ agent_refusal_text self.now }
        ensures short { length result.now ≤ 255 }
    {
        match self {
            AgentRefusal::NotForMe => "A1 NotForMe",
            AgentRefusal::OldSession => "A2 OldSession",
            AgentRefusal::NotNext => "A3 NotNext",
            AgentRefusal::NoSuchTask => "A4 NoSuchTask",
            AgentRefusal::Ended => "A5 Ended",
            AgentRefusal::NoRoom => "A6 NoRoom",
            AgentRefusal::UpdatesFull => "A9 UpdatesFull",
            AgentRefusal::SessionsSpent => "A10 SessionsSpent",
            AgentRefusal::TotalLess => "A11 TotalLess",
        }
    }
}

impl fmt::Display for AgentRefusal {
    ghost output = { λ refusal. Some (agent_refusal_text refusal) };

    fn fmt<W: fmt::Write>(&self, f: &mut fmt::Formatter<W>) -> fmt::Result {
        f.write_str(self.as_text())
    }
}

impl Error for AgentRefusal {}

/// Why the master doesn't do what a mail or a call asks.
#[derive(Clone, Copy, Debug, Drop, PartialEq, Eq)]
pub enum MasterRefusal {
    /// The agent reports to a master of another run.
    OtherRun,
    /// The mail's session is below the open one.
    OldSession,
    /// No session is open, and the mail's one is closed.
    Closed,
    /// The mail's session was never reported.
    NotOpen,
    /// The framework has no open stream.
    NotSubscribed,
    /// The call came with another stream than the framework's open one, or with none.
    WrongStream,
    /// The framework isn't known in this run, or was torn down in it.
    NoSuchFramework,
    /// A count is at its limit, or a number at its last value.
    LimitExceeded,
}

impl Plain for MasterRefusal {
    ghost cloned = { Prim.search rules };

    ghost decided = { Prim.search rules };
}

impl MasterRefusal {
    /// Its code and name, as `M3 NoSuchFramework`.
    #[tactic(auto, unfolding(crate::specs::Refusals::master_refusal_text))]
    pub fn as_text(&self) -> &'static str
        ensures text { result.now ≡ master_refusal_text self.now }
        ensures short { length result.now ≤ 255 }
    {
        match self {
            MasterRefusal::OtherRun => "G1 OtherRun",
            MasterRefusal::OldSession => "G2 OldSession",
            MasterRefusal::Closed => "G3 Closed",
            MasterRefusal::NotOpen => "G4 NotOpen",
            MasterRefusal::NotSubscribed => "M1 NotSubscribed",
            MasterRefusal::WrongStream => "M2 WrongStream",
            MasterRefusal::NoSuchFramework => "M3 NoSuchFramework",
            MasterRefusal::LimitExceeded => "M4 LimitExceeded",
        }
    }
}

impl fmt::Display for MasterRefusal {
    ghost output = { λ refusal. Some (master_refusal_text refusal) };

    fn fmt<W: fmt::Write>(&self, f: &mut fmt::Formatter<W>) -> fmt::Result {
        f.write_str(self.as_text())
    }
}

impl Error for MasterRefusal {}
