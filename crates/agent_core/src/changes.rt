//! What changes of an agent's tasks leave is a record: each function's contract is a law,
//! and its call adds the law to a proof.

ghost use Rattle.std.specs.Prelude.{◌≡◌, ◌<◌, true, map, List};
ghost use Rattle.quantity.specs.declared.rows.Row.{Row};
ghost use Rattle.std.specs.List.{AllByRecursion as Each};
ghost use Rattle.stream_core.specs.Updates.{are_updates};
ghost use Rattle.cluster_model.specs.Agents.{has_room, stated, tasks_after};
ghost use Rattle.agent_core.specs.Drafts.{agent_of};
ghost use Rattle.agent_core.specs.Records.{HasRoom, is_record, with_other_tasks};

use crate::state::State;
use messages::{Command, RecordedTask};
use names_core::{LaunchKey, TaskState};
use values::Shared;

/// The updates of all tasks are as those of every value of their type.
fn tasks_are_recorded(tasks: &[Shared<RecordedTask>])
    ensures { Each (λ t. are_updates t.updates.states t.updates.acknowledged ≡ true) tasks.now }
{
    for task in tasks {
        let _states = task.updates.states();
    }
}

impl State {
    /// A state that is added to the task of a key leaves a record, and all the room there was.
    pub fn stated_is_record(&self, key: LaunchKey, state: TaskState)
        ensures recorded { is_record (with_other_tasks self.now.durable
            (map (stated key state) self.now.durable.tasks)) ≡ true }
        ensures room { (room : List Row) → HasRoom room self.now.durable → HasRoom room
            (with_other_tasks self.now.durable
            (map (stated key state) self.now.durable.tasks)) }
    {
        quantity::amounts_add_up();
        quantity::covers_is_at_least();
        tasks_are_recorded(self.tasks());
        let _recorded = self.parts();
    }

    /// A command that is next, and for which there is room, leaves a record.
    pub fn applied_is_record(&self, command: &Command)
        requires run { 0 < self.now.durable.run }
        requires room { has_room (agent_of self.now) command.now ≡ true }
        ensures { is_record (with_other_tasks self.now.durable
            (tasks_after command.now self.now.durable.tasks)) ≡ true }
    {
        quantity::amounts_add_up();
        quantity::covers_is_at_least();
        tasks_are_recorded(self.tasks());
        let _recorded = self.parts();
    }
}
