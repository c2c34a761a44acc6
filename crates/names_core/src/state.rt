//! The states of a task.

ghost use Rattle.std.specs.Prelude.{◌≡◌, Some};
ghost use Rattle.names_core.specs.States.{state_text, state_of, is_terminal};
ghost use Rattle.names_core.specs.declared.state.TaskState.{TaskState};

use values::Plain;

/// The task states of the Mesos scheduler HTTP API that this cluster manager reports.
#[derive(Clone, Copy, Debug, Drop, PartialEq, Eq)]
pub enum TaskState {
    /// Launched, and its executor has reported no state yet.
    Staging,
    Running,
    /// Ended by itself, successfully.
    Finished,
    /// Ended by itself, with a failure.
    Failed,
    /// Ended by a KILL.
    Killed,
    /// Not known to the master or to its agent.
    Lost,
    /// Never launched, because what was asked can't be had.
    Error,
}

impl Plain for TaskState {
    ghost use Rattle.std.proofs.Common.{rules};

    ghost cloned = { Prim.search rules };

    ghost decided = { Prim.search rules };
}

impl TaskState {
    /// As the scheduler HTTP API writes it.
    #[tactic(auto, unfolding(crate::specs::States::state_text))]
    pub fn as_text(self) -> &'static str
        ensures { result.now ≡ state_text self }
    {
        match self {
            TaskState::Staging => "TASK_STAGING",
            TaskState::Running => "TASK_RUNNING",
            TaskState::Finished => "TASK_FINISHED",
            TaskState::Failed => "TASK_FAILED",
            TaskState::Killed => "TASK_KILLED",
            TaskState::Lost => "TASK_LOST",
            TaskState::Error => "TASK_ERROR",
        }
    }

    /// The state that a text is, if it is one.
    #[tactic(auto, unfolding(crate::specs::States::state_of))]
    pub fn from_text(text: &str) -> Option<TaskState>
        ensures { result ≡ state_of text.now }
    {
        match text {
            "TASK_STAGING" => Some(TaskState::Staging),
            "TASK_RUNNING" => Some(TaskState::Running),
            "TASK_FINISHED" => Some(TaskState::Finished),
            "TASK_FAILED" => Some(TaskState::Failed),
            "TASK_KILLED" => Some(TaskState::Killed),
            "TASK_LOST" => Some(TaskState::Lost),
            "TASK_ERROR" => Some(TaskState::Error),
            _ => None,
        }
    }

    /// Whether a task in this state has ended for good.
    pub fn is_terminal(self) -> bool
        ensures { result ≡ is_terminal self }
    {
        match self {
            TaskState::Staging | TaskState::Running => false,
            TaskState::Finished
            | TaskState::Failed
            | TaskState::Killed
            | TaskState::Lost
            | TaskState::Error => true,
        }
    }
}

/// The text of a state is read as that state.
#[tactic(auto, unfolding(crate::specs::States::state_of, crate::specs::States::state_text))]
pub fn one_state_text()
    ensures { (s : TaskState) → state_of (state_text s) ≡ Some s }
{}
