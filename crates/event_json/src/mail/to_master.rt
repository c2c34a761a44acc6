//! Mails from agents.

ghost use Rattle.std.specs.Prelude.{◌≡◌, codes, IfOk};
ghost use Rattle.serde_json.specs.View.{view};
ghost use Rattle.event_json.specs.Texts.{list_data};
ghost use Rattle.event_json.specs.Mails.{agent_mail_data, applied_data, booked_data, only, report_object, to_master_form, update_data};

use crate::record::{amounts_value, framework_value, key_value};
use messages::{AgentMail, Booked, ToMaster};
use names_core::{AgentName, LaunchKey, TaskState};
use quantity::Resources;
use serde_json::{Value, json};
use std::alloc::{AllocError, Global};

fn booked_value(alloc: Global, task: &Booked) -> Result<Value, AllocError>
    ensures { IfOk result (λ v. view v ≡ booked_data task.now) }
{
    json!(in alloc; {
        "ended": task.ended,
        "framework": framework_value(alloc, &task.job.framework)?,
        "key": key_value(alloc, &task.job.key)?,
        "name": task.job.name.as_text(),
        "resources": amounts_value(alloc, &task.job.resources)?,
        "sent": task.received,
        "state": task.state.as_text()
    })
}

fn tasks_value(alloc: Global, tasks: &[Booked]) -> Result<Value, AllocError>
    ensures { IfOk result (λ v. view v ≡ list_data booked_data tasks.now) }
{
    let mut values = Vec::with_capacity(alloc, tasks.len())?;
    for task in tasks {
        values.push(booked_value(alloc, task)?)?;
    }
    Ok(Value::Array(values))
}

/// What an agent reports: its session in a run, its tasks, and what it owns.
fn reported_value(
    alloc: Global,
    agent: &AgentName,
    session: u32,
    run: u32,
    tasks: &[Booked],
    total: &Resources,
) -> Result<Value, AllocError>
    ensures { IfOk result
        (λ v. view v ≡ report_object agent.now session run tasks.now total.now) }
{
    json!(in alloc; {
        "agent": agent.as_text(),
        "run": run,
        "session": session,
        "tasks": tasks_value(alloc, tasks)?,
        "total": amounts_value(alloc, total)?
    })
}

fn report_value(
    alloc: Global,
    agent: &AgentName,
    session: u32,
    run: u32,
    tasks: &[Booked],
    total: &Resources,
) -> Result<Value, AllocError>
    ensures { IfOk result (λ v. view v
        ≡ only (codes "report") (report_object agent.now session run tasks.now total.now)) }
{
    json!(in alloc; {"report": reported_value(alloc, agent, session, run, tasks, total)?})
}

fn applied_value(
    alloc: Global,
    agent: &AgentName,
    session: u32,
    count: u32,
) -> Result<Value, AllocError>
    ensures { IfOk result (λ v. view v ≡ applied_data agent.now session count) }
{
    json!(in alloc; {"applied": {"agent": agent.as_text(), "n": count, "session": session}})
}

fn update_value(
    alloc: Global,
    agent: &AgentName,
    session: u32,
    key: &LaunchKey,
    k: u32,
    state: TaskState,
    ended: bool,
) -> Result<Value, AllocError>
    ensures { IfOk result (λ v. view v ≡ update_data agent.now session key.now k state ended) }
{
    json!(in alloc; {
        "update": {
            "agent": agent.as_text(),
            "ended": ended,
            "k": k,
            "key": key_value(alloc, key)?,
            "session": session,
            "state": state.as_text()
        }
    })
}

#[tactic(auto, unfolding(crate::specs::Mails::agent_mail_data))]
fn value_of(alloc: Global, to: &ToMaster) -> Result<Value, AllocError>
    ensures { IfOk result (λ v. view v ≡ agent_mail_data to.now.agent to.now.mail) }
{
    let agent = &to.agent;
    match &to.mail {
        AgentMail::Report {
            session,
            run,
            tasks,
            total,
        } => report_value(alloc, agent, *session, *run, tasks.as_slice(), total),
        AgentMail::Applied { session, count } => applied_value(alloc, agent, *session, *count),
        AgentMail::Update {
            session,
            key,
            k,
            state,
            ended,
        } => update_value(alloc, agent, *session, key, *k, *state, *ended),
    }
}

/// The text of a mail from an agent: compact JSON (RFC 8259), in which an object's members are in
/// byte order of their names, and a report's tasks in its own order, followed by the total.
pub fn to_master_text(alloc: Global, to: &ToMaster) -> Result<Vec<u8>, AllocError>
    ensures { IfOk result (λ text. text.items ≡ to_master_form to.now) }
{
    let value = value_of(alloc, to)?;
    value.to_vec(alloc)
}
