//! Which tasks a cause leaves as they are. These calls take no memory.

ghost use Rattle.std.specs.Prelude.{◌≡◌, ◌≤◌, true, Ok, length, take};
ghost use Rattle.std.specs.List.{list_all};
ghost use Rattle.cluster_model.specs.Agents.{Draft, next_of};
ghost use Rattle.agent_core.specs.Drafts.{agent_of};
ghost use Rattle.agent_core.specs.Spared.{command_spares, spares};

use crate::state::State;
use crate::tasks::is_of_key;
use messages::{Cause, Command, MasterMail, RecordedTask};
use values::Shared;

/// Whether a command names neither a task nor its framework, and launches none before it.
fn command_spares(command: &Command, task: &RecordedTask) -> bool
    ensures { result ≡ command_spares command.now task.now }
{
    match command {
        Command::Launch(job, _) => task.job.key < job.key,
        Command::Kill(key) | Command::Ack(key, _) => !is_of_key(*key, task),
        Command::EndFramework(framework) => task.job.framework != *framework,
    }
}

/// Whether a cause leaves a task as it is, and in its place.
fn spares(cause: &Cause, task: &RecordedTask) -> bool
    ensures { result ≡ spares cause.now task.now }
{
    match cause {
        Cause::Executor(key, _) => !is_of_key(*key, task),
        Cause::Mail(to) => match &to.mail {
            MasterMail::Issued { command, .. } => command_spares(command, task),
            MasterMail::Hello { .. } => true,
        },
        _ => true,
    }
}

/// How many of the first tasks a cause spares.
fn spared_first(cause: &Cause, tasks: &[Shared<RecordedTask>]) -> usize
    ensures within { result ≤ length tasks.now }
    ensures spared { list_all (spares cause.now) (take result tasks.now) ≡ true }
{
    for i in 0..tasks.len() {
        if !spares(cause, &tasks[i]) {
            return i;
        }
    }
    tasks.len()
}

impl State {
    /// How many of the first tasks are as they are in what a cause makes of the agent.
    pub fn kept_first(&self, cause: &Cause) -> usize
        ensures within { result ≤ length self.now.durable.tasks }
        ensures kept { (d : Draft) → next_of (agent_of self.now) cause.now ≡ Ok d
            → take result self.now.durable.tasks ≡ take result d.after.durable.tasks }
    {
        let _recorded = self.parts();
        spared_first(cause, self.tasks())
    }
}
