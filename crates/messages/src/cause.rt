//! The causes that an agent acts on.

ghost use Rattle.std.specs.Prelude.{◌≡◌};
ghost use Rattle.std.proofs.Common.{rules};
ghost use Rattle.messages.specs.Causes.{task_state};

use crate::mail::ToAgent;
use names_core::{LaunchKey, TaskState};
use quantity::Resources;
use values::Plain;

/// A state that the executor of a task reports: that the task runs, or how it ended by itself.
#[derive(Clone, Copy, Debug, Drop, PartialEq, Eq)]
pub enum ExecutorState {
    Running,
    Finished,
    Failed,
}

impl Plain for ExecutorState {
    ghost cloned = { Prim.search rules };

    ghost decided = { Prim.search rules };
}

impl ExecutorState {
    /// The task's state from then on.
    pub fn task_state(self) -> TaskState
        ensures { result ≡ task_state self }
    {
        match self {
            ExecutorState::Running => TaskState::Running,
            ExecutorState::Finished => TaskState::Finished,
            ExecutorState::Failed => TaskState::Failed,
        }
    }
}

/// What an agent acts on.
#[derive(Clone, Drop, PartialEq)]
pub enum Cause {
    /// It starts, and opens a new session with the master of its last run.
    /// With a total it owns that from then on.
    Start(Option<Resources>),
    /// A mail from the master, which may be for another agent.
    Mail(ToAgent),
    /// The executor of the task of this key reports a state.
    Executor(LaunchKey, ExecutorState),
    /// It sends again what isn't acknowledged.
    Again,
}

impl Plain for Cause {
    ghost use Rattle.messages.specs.contracts.mail.ToAgentPlain.TheImpl.Laws.{decided-law as mail_decided};
    ghost use Rattle.messages.specs.declared.cause.Cause.TheVariants.{Again, Executor, Mail, Start};
    ghost use Rattle.quantity.specs.contracts.resources.ResourcesPlain.TheImpl.Laws.{decided-law as resources_decided};

    ghost cloned = { Prim.search rules };

    ghost decided = { elim [
      | Start t ↦ elim [ Start u ↦ Prim.search (rules, resources_decided) | _ ↦ Prim.search rules ]
      | Mail m ↦ elim [
        | Mail n ↦ (let d = mail_decided m n in (
          (λ h. let e = d.0 h in
              Prim.search rules),
          (λ e. d.1 (Prim.search rules)),
        ))
        | _ ↦ Prim.search rules
      ]
      | Executor k s ↦ elim [ Executor l t ↦ Prim.search rules | _ ↦ Prim.search rules ]
      | Again ↦ elim [ Again ↦ Prim.search rules | _ ↦ Prim.search rules ]
    ] };
}
