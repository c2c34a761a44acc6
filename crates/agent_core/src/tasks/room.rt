//! What an agent's total leaves.

ghost use Rattle.std.specs.Prelude.{◌≡◌, ◌++◌, ◌&&◌, IfOk, IfSome, List, is_some};
ghost use Rattle.std.specs.Bool.{OnTrue};
ghost use Rattle.quantity.specs.Rows.{covers};
ghost use Rattle.quantity.specs.declared.rows.Row.{Row};
ghost use Rattle.agent_core.specs.Room.{Leaves};
ghost use Rattle.cluster_model.specs.Agents.{live_tasks, task_rows};

use messages::RecordedTask;
use quantity::Resources;
use std::alloc::{AllocError, Global};
use values::{Plain, Shared};

/// Subtracts resources where they are covered, and returns whether they were.
fn take(rest: &mut Resources, resources: &Resources) -> bool
    ensures covered { (more : List Row) → covers rest.old (resources.now ++ more)
        ≡ (result && covers rest.new more) }
    ensures left { OnTrue result (Leaves rest.new resources.now rest.old) }
{
    quantity::amounts_add_up();
    quantity::covers_is_at_least();
    quantity::rests_are_less();
    let _ordered = rest.rows();
    if !rest.covers(resources) {
        return false;
    }
    rest.reduce_by(resources);
    true
}

fn take_live(rest: &mut Resources, tasks: &[Shared<RecordedTask>]) -> bool
    ensures covered { result ≡ covers rest.old (task_rows (live_tasks tasks.now)) }
    ensures left { OnTrue result (Leaves rest.new (task_rows (live_tasks tasks.now)) rest.old) }
{
    for task in tasks {
        if !task.updates.has_ended() && !take(rest, &task.job.resources) {
            return false;
        }
    }
    true
}

/// What some resources and the tasks that haven't ended leave of a total;
/// None where it has less of a name than they have together.
pub fn room_beside(
    alloc: Global,
    total: &Resources,
    resources: &Resources,
    tasks: &[Shared<RecordedTask>],
) -> Result<Option<Resources>, AllocError>
    ensures some { IfOk result (λ room. is_some room ≡ covers total.now
        (resources.now ++ task_rows (live_tasks tasks.now))) }
    ensures left { IfOk result (λ room. IfSome room (λ rest. Leaves rest
        (resources.now ++ task_rows (live_tasks tasks.now)) total.now)) }
{
    let mut rest = total.copy()?;
    if take(&mut rest, resources) && take_live(&mut rest, tasks) {
        Ok(Some(rest))
    } else {
        Ok(None)
    }
}
