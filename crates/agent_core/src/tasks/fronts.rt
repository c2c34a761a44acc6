//! What of a record's tasks is sent: all of them in a Report,
//! and the updates that aren't acknowledged.

ghost use Rattle.std.specs.Prelude.{◌≡◌, ◌++◌, IfOk, OnOk, map, filter, flat_map};
ghost use Rattle.cluster_model.specs.Agents.{state_at, sent_count, reported, front_of, is_task};

use crate::tasks::edits::is_of_key;
use messages::{AgentMail, Booked, RecordedTask};
use names_core::{LaunchKey, TaskState};
use std::alloc::{AllocError, Global};
use values::{Plain, Shared};

/// The last of the first so many states, TASK_STAGING for none.
fn state_at(states: &[TaskState], count: u32) -> TaskState
    ensures { result ≡ state_at states.now count }
{
    if count == 0 {
        return TaskState::Staging;
    }
    match states.get(count as usize - 1) {
        Some(state) => *state,
        None => TaskState::Staging,
    }
}

/// How many updates were sent so far.
fn sent_count(task: &RecordedTask) -> u32
    ensures { result ≡ sent_count task.now }
{
    let acknowledged = task.updates.acknowledged();
    let count = task.updates.states().len();
    if (acknowledged as usize) < count {
        acknowledged + 1
    } else {
        count as u32
    }
}

fn reported(task: &RecordedTask) -> Result<Booked, AllocError>
    ensures { IfOk result (λ booked. booked ≡ reported task.now) }
{
    let sent = sent_count(task);
    Ok(Booked {
        job: task.job.copy()?,
        ended: task.updates.has_ended(),
        received: sent,
        state: state_at(task.updates.states(), sent),
    })
}

/// Tasks as a Report has them.
pub fn all_reported(
    alloc: Global,
    tasks: &[Shared<RecordedTask>],
) -> Result<Vec<Booked>, AllocError>
    ensures { IfOk result (λ booked. booked.items ≡ map reported tasks.now) }
{
    let mut booked = Vec::with_capacity(alloc, tasks.len())?;
    for task in tasks {
        booked.push(reported(task)?)?;
    }
    Ok(booked)
}

fn push_front(
    mails: &mut Vec<AgentMail>,
    session: u32,
    task: &RecordedTask,
) -> Result<(), AllocError>
    ensures { OnOk result (mails.new.items ≡ mails.old.items ++ front_of session task.now) }
{
    let k = task.updates.acknowledged();
    let states = task.updates.states();
    if (k as usize) < states.len() {
        mails.push(AgentMail::Update {
            session,
            key: task.job.key,
            k,
            state: state_at(states, k + 1),
            ended: task.updates.has_ended(),
        })?;
    }
    Ok(())
}

/// Adds the front of each task.
pub fn push_fronts(
    mails: &mut Vec<AgentMail>,
    session: u32,
    tasks: &[Shared<RecordedTask>],
) -> Result<(), AllocError>
    ensures { OnOk result (mails.new.items ≡ mails.old.items
        ++ flat_map (front_of session) tasks.now) }
{
    for task in tasks {
        push_front(mails, session, task)?;
    }
    Ok(())
}

/// Adds the front of the task of a key.
pub fn push_fronts_at(
    mails: &mut Vec<AgentMail>,
    session: u32,
    key: LaunchKey,
    tasks: &[Shared<RecordedTask>],
) -> Result<(), AllocError>
    ensures { OnOk result (mails.new.items ≡ mails.old.items
        ++ flat_map (front_of session) (filter (is_task key) tasks.now)) }
{
    for task in tasks {
        if is_of_key(key, task) {
            push_front(mails, session, task)?;
        }
    }
    Ok(())
}
