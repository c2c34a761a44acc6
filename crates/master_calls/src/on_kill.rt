//! KILL and ACKNOWLEDGE.

ghost use Rattle.std.specs.Prelude.{◌≡◌, ◌||◌, true, IfOk, IfSome, option_map};
ghost use Rattle.messages.specs.declared.call.Call.TheVariants as calls;
ghost use Rattle.cluster_model.specs.Sides.{SendAck, SendKill};
ghost use Rattle.cluster_model.specs.Masters.{AtSide, held, may_have_numbers, side_of};
ghost use Rattle.cluster_model.specs.Calls.{call_effect, commanding};
ghost use Rattle.master_state.specs.Works.{Gave, master_of};
ghost use Rattle.offer_tables.specs.Found.{place};
ghost use Rattle.master_calls.specs.Tasks.{held_task, kill_limit, kills};

use master_state::{MasterFault, State};
use messages::{Booked, Command, MasterRefusal};
use names_core::{AgentName, FrameworkId, LaunchKey, StreamId, TaskName, TaskState, UpdateId};
use std::alloc::{AllocError, Global};
use values::Plain;

/// What is sent of a booked task.
#[derive(Drop)]
pub struct HeldTask {
    pub name: TaskName,
    pub agent: AgentName,
    pub key: LaunchKey,
    pub ended: bool,
    pub state: TaskState,
}

pub(crate) fn copy_held(
    alloc: Global,
    agent: &AgentName,
    task: &Booked,
) -> Result<HeldTask, AllocError>
    ensures { IfOk result (λ copy. copy ≡ held_task (place agent.now task.now)) }
{
    Ok(HeldTask {
        name: task.job.name.copy()?,
        agent: agent.copy()?,
        key: task.job.key,
        ended: task.ended,
        state: task.state,
    })
}

/// The booked task of a framework with this name, if any.
pub(crate) fn held_of(
    state: &State,
    alloc: Global,
    framework: FrameworkId,
    name: &TaskName,
) -> Result<Option<HeldTask>, AllocError>
    ensures { IfOk result (λ task. task ≡ option_map held_task
        (held (master_of state.now) framework name.now)) }
{
    match state.sides.held(framework, name) {
        None => Ok(None),
        Some((agent, task)) => Ok(Some(copy_held(alloc, agent, task)?)),
    }
}

/// Why a limit refuses a KILL of the framework's held task of this name, if one does: the session
/// of its agent has no command number left.
fn kill_limit(state: &State, framework: FrameworkId, name: &TaskName) -> Option<MasterRefusal>
    ensures { result ≡ kill_limit (master_of state.now)
        (held (master_of state.now) framework name.now) }
{
    let Some((agent, task)) = state.sides.held(framework, name) else {
        return None;
    };
    if task.ended || state.sides.may_have_numbers(agent, 1) {
        return None;
    }
    Some(MasterRefusal::LimitExceeded)
}

fn order_kill(
    state: &mut State,
    alloc: Global,
    agent: &AgentName,
    key: LaunchKey,
) -> Result<(), MasterFault>
    requires { may_have_numbers 1 (side_of (master_of state.old) agent.now) ≡ true }
    ensures { Gave result state.old state.new
        (commanding (master_of state.old) (side_of (master_of state.old) agent.now)
        (AtSide agent.now (SendKill key))) }
{
    match state.order(alloc, agent, Command::Kill(key), Command::Kill(key)) {
        Ok(()) => Ok(()),
        Err(_) => Err(MasterFault::OutOfMemory),
    }
}

fn order_ack(
    state: &mut State,
    alloc: Global,
    agent: &AgentName,
    key: LaunchKey,
    k: u32,
) -> Result<(), MasterFault>
    ensures { Gave result state.old state.new
        (commanding (master_of state.old) (side_of (master_of state.old) agent.now)
        (AtSide agent.now (SendAck key k))) }
{
    if !state.sides.may_have_numbers(agent, 1) {
        return Err(MasterFault::Refused(MasterRefusal::LimitExceeded));
    }
    match state.order(alloc, agent, Command::Ack(key, k), Command::Ack(key, k)) {
        Ok(()) => Ok(()),
        Err(_) => Err(MasterFault::OutOfMemory),
    }
}

/// What KILL does with a held task, or with none.
fn kill_held(
    state: &mut State,
    alloc: Global,
    stream: StreamId,
    task: TaskName,
    agent: Option<AgentName>,
    held: Option<HeldTask>,
) -> Result<(), MasterFault>
    requires { IfSome held (λ h. (h.ended
        || may_have_numbers 1 (side_of (master_of state.old) h.agent)) ≡ true) }
    ensures { Gave result state.old state.new (kills (master_of state.old) stream task agent held) }
{
    let Some(held) = held else {
        return match state.send_task_state(stream, task, TaskState::Lost, agent) {
            Ok(()) => Ok(()),
            Err(_) => Err(MasterFault::OutOfMemory),
        };
    };
    if !held.ended {
        return order_kill(state, alloc, &held.agent, held.key);
    }
    match state.send_task_state(stream, held.name, held.state, Some(held.agent)) {
        Ok(()) => Ok(()),
        Err(_) => Err(MasterFault::OutOfMemory),
    }
}

/// Ends a task (Mesos scheduler HTTP API, KILL): a command goes to the agent of a booked task that
/// hasn't ended; for one that has ended its state is sent, and for one that isn't booked TASK_LOST.
/// Refused as `State::admit` is, and `M4 LimitExceeded` where the agent's session has no command
/// number left.
pub fn kill(
    state: &mut State,
    alloc: Global,
    given: Option<StreamId>,
    framework: FrameworkId,
    task: TaskName,
    agent: Option<AgentName>,
) -> Result<(), MasterFault>
    ensures { Gave result state.old state.new
        (call_effect (master_of state.old) given (calls.Kill framework task agent)) }
{
    let stream = match state.admit(given, framework) {
        Ok(stream) => stream,
        Err(refusal) => return Err(MasterFault::Refused(refusal)),
    };
    if let Some(refusal) = kill_limit(state, framework, &task) {
        return Err(MasterFault::Refused(refusal));
    }
    let held = match held_of(state, alloc, framework, &task) {
        Ok(held) => held,
        Err(_) => return Err(MasterFault::OutOfMemory),
    };
    kill_held(state, alloc, stream, task, agent, held)
}

/// A status update was received (Mesos scheduler HTTP API, ACKNOWLEDGE): where it is the last one
/// that the master received of the framework's task of this name and key on this agent, a command
/// goes there; else nothing happens. Refused as `State::admit` is, and `M4 LimitExceeded` where the
/// agent's session has no command number left.
pub fn acknowledge(
    state: &mut State,
    alloc: Global,
    given: Option<StreamId>,
    framework: FrameworkId,
    agent: &AgentName,
    task: &TaskName,
    update: UpdateId,
) -> Result<(), MasterFault>
    ensures { Gave result state.old state.new
        (call_effect (master_of state.old) given
        (calls.Acknowledge framework agent.now task.now update)) }
{
    let _stream = match state.admit(given, framework) {
        Ok(stream) => stream,
        Err(refusal) => return Err(MasterFault::Refused(refusal)),
    };
    let key = update.key();
    let k = u32::from(update.k());
    if !state.sides.is_received_last(framework, agent, task, key, k) {
        return Ok(());
    }
    order_ack(state, alloc, agent, key, k)
}
