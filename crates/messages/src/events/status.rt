//! What became of a task.

ghost use Rattle.std.proofs.Common.{rules};

use names_core::{AgentName, TaskName, TaskState, UpdateId};
use values::Plain;

/// The state of a task. An update that has to be acknowledged has an id.
#[derive(Clone, Drop, PartialEq)]
pub struct TaskStatus {
    pub task: TaskName,
    pub state: TaskState,
    pub agent: Option<AgentName>,
    pub update: Option<UpdateId>,
}

impl Plain for TaskStatus {
    ghost use Rattle.names_core.specs.contracts.state.TaskStatePlain.TheImpl.Laws.{decided-law as state_decided};
    ghost use Rattle.names_core.specs.contracts.task.TaskNamePlain.TheImpl.Laws.{decided-law as task_decided};
    ghost use Rattle.values.specs.Deciding.{and_decides};
    ghost use Rattle.std.specs.Bool.{Decides};
    ghost use Rattle.std.specs.Prelude.{◌≡◌};

    ghost cloned = { Prim.search rules };

    ghost decided = { λ x y. (let agent : Decides (⟦<Option<AgentName> as PartialEq>⟧.eq x.agent
        y.agent) (x.agent ≡ y.agent) = Prim.search rules in
        let update : Decides (⟦<Option<UpdateId> as PartialEq>⟧.eq x.update y.update) (x.update
        ≡ y.update) = Prim.search rules in let d = and_decides (task_decided x.task y.task)
        (and_decides (state_decided x.state y.state) (and_decides agent update)) in
        ((λ h. let e = d.0 h in Prim.search rules), (λ e. d.1 (Prim.search rules)))) };
}
