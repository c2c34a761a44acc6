//! What becomes of the tasks of a record: all that a change doesn't name are shared.

ghost use Rattle.std.specs.Prelude.{◌≡◌, ◌&&◌, if◌then◌else◌, IfOk, None, Some, not, map, filter};
ghost use Rattle.std.specs.List.{list_any};
ghost use Rattle.stream_core.specs.Updates.{is_done, is_full};
ghost use Rattle.cluster_model.specs.Agents.{is_task, has_ended, is_front_at, stated, acknowledged, needs_place};
ghost use Rattle.names_core.specs.Ids.{same};

use messages::RecordedTask;
use names_core::{FrameworkId, LaunchKey, TaskState};
use std::alloc::{AllocError, Global};
use values::{Plain, Shared};

/// Whether a task has this key.
pub fn is_of_key(key: LaunchKey, task: &RecordedTask) -> bool
    ensures { result ≡ is_task key task.now }
{
    task.job.key == key
}

fn stated_one(
    alloc: Global,
    key: LaunchKey,
    state: TaskState,
    task: &Shared<RecordedTask>,
) -> Result<Shared<RecordedTask>, AllocError>
    ensures { IfOk result (λ t. t ≡ stated key state task.now) }
{
    if !is_of_key(key, task) || task.updates.has_ended() {
        return task.share();
    }
    let mut changed = task.get().copy()?;
    match changed.updates.push(state) {
        Ok(()) => Shared::new(alloc, changed),
        Err(_) => Err(AllocError),
    }
}

/// The tasks once a state was added to the task of a key, unless it has ended.
/// There has to be a place for the state.
pub fn stated_all(
    alloc: Global,
    key: LaunchKey,
    state: TaskState,
    tasks: &[Shared<RecordedTask>],
) -> Result<Vec<Shared<RecordedTask>>, AllocError>
    ensures { IfOk result (λ v. v.items ≡ map (stated key state) tasks.now) }
{
    let mut changed = Vec::with_capacity(alloc, tasks.len())?;
    for task in tasks {
        changed.push(stated_one(alloc, key, state, task)?)?;
    }
    Ok(changed)
}

fn acknowledged_one(
    alloc: Global,
    key: LaunchKey,
    k: u32,
    task: &Shared<RecordedTask>,
) -> Result<Shared<RecordedTask>, AllocError>
    ensures { IfOk result (λ t. t ≡ acknowledged key k task.now) }
{
    if !is_of_key(key, task) {
        return task.share();
    }
    let mut changed = task.get().copy()?;
    let _taken = changed.updates.acknowledge(k);
    Shared::new(alloc, changed)
}

fn drop_done(tasks: &mut Vec<Shared<RecordedTask>>)
    ensures { tasks.new.items ≡ filter (λ t. not (is_done t.updates)) tasks.old.items }
{
    tasks.retain(|task| !task.updates.done());
}

/// The tasks once update `k` of the task of a key is acknowledged, if it is its front;
/// those that are done then are left out.
pub fn acknowledged_all(
    alloc: Global,
    key: LaunchKey,
    k: u32,
    tasks: &[Shared<RecordedTask>],
) -> Result<Vec<Shared<RecordedTask>>, AllocError>
    ensures { IfOk result (λ v. v.items ≡ filter (λ t. not (is_done t.updates))
        (map (acknowledged key k) tasks.now)) }
{
    let mut changed = Vec::with_capacity(alloc, tasks.len())?;
    for task in tasks {
        changed.push(acknowledged_one(alloc, key, k, task)?)?;
    }
    drop_done(&mut changed);
    Ok(changed)
}

/// The tasks of all other frameworks.
pub fn without_framework(
    alloc: Global,
    framework: FrameworkId,
    tasks: &[Shared<RecordedTask>],
) -> Result<Vec<Shared<RecordedTask>>, AllocError>
    ensures { IfOk result (λ v. v.items ≡ filter (λ t. not (same t.job.framework framework))
        tasks.now) }
{
    let mut kept = Vec::new(alloc);
    for task in tasks {
        if task.job.framework != framework {
            kept.push(task.share()?)?;
        }
    }
    Ok(kept)
}

/// Whether update `k` is the front of the task of this key: the first that isn't acknowledged.
pub fn is_front_at(key: LaunchKey, k: u32, tasks: &[Shared<RecordedTask>]) -> bool
    ensures { result ≡ is_front_at key k tasks.now }
{
    tasks
        .iter()
        .any(|task| is_of_key(key, task) && task.updates.is_front(k))
}

/// The key of the task whose front is sent after an Ack of its update `k`:
/// none where that update isn't its front.
pub fn front_sent_after(key: LaunchKey, k: u32, tasks: &[Shared<RecordedTask>]) -> Option<LaunchKey>
    ensures { result ≡ (if is_front_at key k tasks.now then Some key else None) }
{
    if is_front_at(key, k, tasks) {
        return Some(key);
    }
    None
}

/// Whether there is a task of this key.
pub fn has_task(key: LaunchKey, tasks: &[Shared<RecordedTask>]) -> bool
    ensures { result ≡ list_any (is_task key) tasks.now }
{
    tasks.iter().any(|task| is_of_key(key, task))
}

/// Whether there is a task of this key, and it has ended.
pub fn has_ended_task(key: LaunchKey, tasks: &[Shared<RecordedTask>]) -> bool
    ensures { result ≡ list_any (λ t. is_task key t && has_ended t) tasks.now }
{
    tasks
        .iter()
        .any(|task| is_of_key(key, task) && task.updates.has_ended())
}

/// Whether the task of this key has a place left for a terminal state only.
fn has_full_task(key: LaunchKey, tasks: &[Shared<RecordedTask>]) -> bool
    ensures { result ≡ list_any (λ t. is_task key t && is_full t.updates) tasks.now }
{
    tasks.iter().any(|task| is_of_key(key, task) && task.updates.states().len() >= 4095)
}

/// Whether there is no place for a state at the task of this key.
pub fn lacks_place(key: LaunchKey, state: TaskState, tasks: &[Shared<RecordedTask>]) -> bool
    ensures { result
        ≡ (needs_place state && list_any (λ t. is_task key t && is_full t.updates) tasks.now) }
{
    !state.is_terminal() && has_full_task(key, tasks)
}
