//! RECONCILE.

ghost use Rattle.std.specs.Prelude.{◌≡◌, ◌&&◌, not, IfOk, OnOk, fold};
ghost use Rattle.std.specs.BTreeMap.{values};
ghost use Rattle.messages.specs.declared.call.Call.TheVariants as calls;
ghost use Rattle.names_core.specs.Ids.{same};
ghost use Rattle.cluster_model.specs.Calls.{call_effect, is_awaited};
ghost use Rattle.offer_tables.specs.Found.{place};
ghost use Rattle.offer_tables.specs.Held.{placed_of};
ghost use Rattle.master_agents.specs.Looks.{all_placed};
ghost use Rattle.master_state.specs.Works.{Gave, master_of};
ghost use Rattle.master_calls.specs.Reconciles.{gathers, gathers_found, live_by_key, reconciled, reconciled_as, reconciled_one, sends_held};

use crate::on_kill::{HeldTask, copy_held, held_of};
use master_agents::Sides;
use master_state::{MasterFault, State};
use messages::{Booked, ReconciledTask};
use names_core::{AgentName, FrameworkId, LaunchKey, StreamId, TaskState};
use std::alloc::{AllocError, Global};
use std::collections::BTreeMap;
use values::Plain;

/// Whether an agent that may have a task hasn't opened a session in this run.
fn is_awaited(state: &State, agent: &Option<AgentName>) -> bool
    ensures { result ≡ is_awaited (master_of state.now) agent.now }
{
    match agent {
        None => state.sides.is_any_awaited(),
        Some(agent) => state.sides.is_one_awaited(agent),
    }
}

fn copy_agent(alloc: Global, agent: &Option<AgentName>) -> Result<Option<AgentName>, AllocError>
    ensures { IfOk result (λ copy. copy ≡ agent.now) }
{
    match agent {
        None => Ok(None),
        Some(agent) => Ok(Some(agent.copy()?)),
    }
}

/// Sends the state of a task that is held; of one that isn't, TASK_LOST or nothing.
fn reconcile_as(
    state: &mut State,
    alloc: Global,
    stream: StreamId,
    asked: &ReconciledTask,
    held: Option<HeldTask>,
) -> Result<(), AllocError>
    ensures { OnOk result (state.new ≡ reconciled_as stream asked.now state.old held) }
{
    if let Some(held) = held {
        return state.send_task_state(stream, held.name, held.state, Some(held.agent));
    }
    if is_awaited(state, &asked.agent) {
        return Ok(());
    }
    let name = asked.name.copy()?;
    let agent = copy_agent(alloc, &asked.agent)?;
    state.send_task_state(stream, name, TaskState::Lost, agent)
}

fn reconcile_one(
    state: &mut State,
    alloc: Global,
    framework: FrameworkId,
    stream: StreamId,
    asked: &ReconciledTask,
) -> Result<(), AllocError>
    ensures { OnOk result (state.new ≡ reconciled_one framework stream state.old asked.now) }
{
    let held = held_of(state, alloc, framework, &asked.name)?;
    reconcile_as(state, alloc, stream, asked, held)
}

fn reconcile_each(
    state: &mut State,
    alloc: Global,
    framework: FrameworkId,
    stream: StreamId,
    tasks: &[ReconciledTask],
) -> Result<(), AllocError>
    ensures { OnOk result (state.new ≡ fold (reconciled_one framework stream) state.old tasks.now) }
{
    for asked in tasks {
        reconcile_one(state, alloc, framework, stream, asked)?;
    }
    Ok(())
}

/// Whether a task is one of the framework that hasn't ended.
fn is_live(task: &Booked, framework: FrameworkId) -> bool
    ensures { result ≡ (same task.now.job.framework framework && not task.now.ended) }
{
    task.job.framework == framework && !task.ended
}

fn gather_task(
    live: &mut BTreeMap<LaunchKey, HeldTask>,
    alloc: Global,
    framework: FrameworkId,
    agent: &AgentName,
    task: &Booked,
) -> Result<(), AllocError>
    ensures { OnOk result (live.new.entries
        ≡ gathers framework live.old.entries (place agent.now task.now)) }
{
    if is_live(task, framework) {
        let held = copy_held(alloc, agent, task)?;
        live.insert(task.job.key, held)?;
    }
    Ok(())
}

/// Adds the task of a key, where it is one of the framework's that hasn't ended.
fn gather_key(
    live: &mut BTreeMap<LaunchKey, HeldTask>,
    alloc: Global,
    framework: FrameworkId,
    sides: &Sides,
    key: LaunchKey,
) -> Result<(), AllocError>
    ensures { OnOk result (live.new.entries ≡ gathers_found framework live.old.entries
        (placed_of key (all_placed sides.now))) }
{
    match sides.task_of(key) {
        Some((agent, task)) => gather_task(live, alloc, framework, agent, task),
        None => Ok(()),
    }
}

/// The framework's booked tasks that haven't ended, by their keys. It visits no other framework's.
fn gather_all(
    sides: &Sides,
    alloc: Global,
    framework: FrameworkId,
) -> Result<BTreeMap<LaunchKey, HeldTask>, AllocError>
    ensures { IfOk result (λ live. live.entries
        ≡ live_by_key framework (all_placed sides.now)) }
{
    let keys = sides.keys_of(alloc, framework)?;
    let mut live = BTreeMap::new(alloc);
    for key in keys.as_slice() {
        gather_key(&mut live, alloc, framework, sides, *key)?;
    }
    Ok(live)
}

fn send_all(
    state: &mut State,
    stream: StreamId,
    live: BTreeMap<LaunchKey, HeldTask>,
) -> Result<(), AllocError>
    ensures { OnOk result (state.new ≡ fold (sends_held stream) state.old (values live)) }
{
    for held in live.into_values() {
        state.send_task_state(stream, held.name, held.state, Some(held.agent))?;
    }
    Ok(())
}

fn reconcile_asked(
    state: &mut State,
    alloc: Global,
    framework: FrameworkId,
    stream: StreamId,
    tasks: &[ReconciledTask],
) -> Result<(), AllocError>
    ensures { OnOk result (state.new ≡ reconciled framework stream tasks.now state.old) }
{
    if !tasks.is_empty() {
        return reconcile_each(state, alloc, framework, stream, tasks);
    }
    let live = gather_all(&state.sides, alloc, framework)?;
    send_all(state, stream, live)
}

/// Sends the states of tasks (Mesos scheduler HTTP API, RECONCILE), in the order asked: of one that
/// is booked its state; of one that isn't TASK_LOST, where the agent that it is thought to be on,
/// or where none is named every agent, has opened a session in this run or isn't configured; else
/// nothing. Where no task is named, the states of all the framework's tasks that haven't ended are
/// sent, by their launch keys. Refused as `State::admit` is.
pub fn reconcile(
    state: &mut State,
    alloc: Global,
    given: Option<StreamId>,
    framework: FrameworkId,
    tasks: &[ReconciledTask],
) -> Result<(), MasterFault>
    ensures { Gave result state.old state.new
        (call_effect (master_of state.old) given (calls.Reconcile framework tasks.now)) }
{
    let stream = match state.admit(given, framework) {
        Ok(stream) => stream,
        Err(refusal) => return Err(MasterFault::Refused(refusal)),
    };
    match reconcile_asked(state, alloc, framework, stream, tasks) {
        Ok(()) => Ok(()),
        Err(_) => Err(MasterFault::OutOfMemory),
    }
}
