//! The task that a framework holds under a name.

ghost use Rattle.std.specs.Prelude.{◌≡◌, fold, option_map};
ghost use Rattle.cluster_model.specs.Masters.{stands_before, first_placed};
ghost use Rattle.offer_tables.specs.Found.{place};
ghost use Rattle.master_calls.specs.Holding.{is_of_name, first_at};

use messages::Booked;
use names_core::{AgentName, FrameworkId, TaskName};

/// Of two tasks, the one that hasn't ended, then the one with the least key.
fn stands_before(agent: &AgentName, task: &Booked, other_agent: &AgentName, other: &Booked) -> bool
    ensures { result ≡ stands_before (place agent.now task.now) (place other_agent.now other.now) }
{
    if task.ended {
        other.ended && task.job.key < other.job.key
    } else {
        other.ended || task.job.key < other.job.key
    }
}

fn is_task_of(task: &Booked, framework: FrameworkId, name: &TaskName) -> bool
    ensures { result ≡ is_of_name framework name.now task.now }
{
    task.job.framework == framework && task.job.name.is(name)
}

fn better<'a>(
    best: Option<(&'a AgentName, &'a Booked)>,
    agent: &'a AgentName,
    task: &'a Booked,
) -> Option<(&'a AgentName, &'a Booked)>
    ensures { option_map (λ h. place h.0.now h.1.now) result
        ≡ first_placed (option_map (λ h. place h.0.now h.1.now) best.entry)
        (place agent.entry.now task.entry.now) }
{
    match best {
        None => Some((agent, task)),
        Some((other_agent, other)) => {
            if stands_before(agent, task, other_agent, other) {
                Some((agent, task))
            } else {
                best
            }
        }
    }
}

/// Of a task that was found before, if any, and the tasks of a framework with this name on an
/// agent: the one that hasn't ended, then the one with the least launch key.
pub(crate) fn first_among<'a>(
    before: Option<(&'a AgentName, &'a Booked)>,
    agent: &'a AgentName,
    tasks: &'a [Booked],
    framework: FrameworkId,
    name: &TaskName,
) -> Option<(&'a AgentName, &'a Booked)>
    ensures { option_map (λ h. place h.0.now h.1.now) result
        ≡ fold (first_at framework name.now agent.entry.now)
        (option_map (λ h. place h.0.now h.1.now) before.entry) tasks.entry.now }
{
    let mut best = before;
    for task in tasks {
        if is_task_of(task, framework, name) {
            best = better(best, agent, task);
        }
    }
    best
}
