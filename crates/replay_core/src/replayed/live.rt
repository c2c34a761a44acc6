//! What the live tasks of an agent hold.

ghost use Rattle.std.specs.Prelude.{◌≡◌, ◌∷◌, [], IfOk, OnOk};
ghost use Rattle.cluster_model.specs.Agents.{live_tasks, task_rows};
ghost use Rattle.quantity.specs.Rows.{plus_rows};
ghost use Rattle.replay_core.specs.Tables.{live};

use messages::RecordedTask;
use quantity::Resources;
use std::alloc::{AllocError, Global};
use values::Shared;

/// Adds resources. Their sum is within what an agent owns, so that memory alone can be refused.
fn add(alloc: Global, sum: &mut Resources, more: &Resources) -> Result<(), AllocError>
    ensures { OnOk result (sum.new ≡ plus_rows sum.old more.now) }
{
    match sum.plus(alloc, more) {
        Ok(both) => {
            *sum = both;
            Ok(())
        }
        Err(_) => Err(AllocError),
    }
}

/// Adds what a task holds, if it hasn't ended.
fn add_task(alloc: Global, sum: &mut Resources, task: &RecordedTask) -> Result<(), AllocError>
    ensures { OnOk result (sum.new ≡ plus_rows sum.old (task_rows (live_tasks (task.now ∷ [])))) }
{
    if task.updates.has_ended() {
        return Ok(());
    }
    add(alloc, sum, &task.job.resources)
}

/// The sum of what the tasks hold that haven't ended.
pub(crate) fn live(alloc: Global, tasks: &[Shared<RecordedTask>]) -> Result<Resources, AllocError>
    ensures { IfOk result (λ sum. sum ≡ live tasks.now) }
{
    let mut sum = Resources::new(alloc);
    for task in tasks {
        add_task(alloc, &mut sum, task)?;
    }
    Ok(sum)
}
