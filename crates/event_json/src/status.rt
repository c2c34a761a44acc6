//! What became of a task.

ghost use Rattle.std.specs.Prelude.{◌≡◌, [], option_map, IfOk, OnOk, IfSome};
ghost use Rattle.serde_json.specs.Data.{object, no_members};
ghost use Rattle.serde_json.specs.View.{view, members_view};
ghost use Rattle.names_core.specs.Updates.{update_text};
ghost use Rattle.event_json.specs.Bounds.{IsName, IsStatus};
ghost use Rattle.event_json.specs.Statuses.{with_agent, with_uuid, status_data};

use crate::object::id_value;
use messages::TaskStatus;
use names_core::{AgentName, UpdateId};
use serde_json::{Map, Value, put};
use std::alloc::{AllocError, Global};

/// Inserts the agent, where there is one, into an empty object.
fn put_agent(
    members: &mut Map<String, Value>,
    alloc: Global,
    agent: &Option<AgentName>,
) -> Result<(), AllocError>
    requires { members.old.entries ≡ [] }
    ensures value { OnOk result (members_view members.new.entries
        ≡ with_agent agent.now no_members) }
    ensures name { OnOk result (IfSome agent.now IsName) }
{
    let Some(agent) = agent else {
        return Ok(());
    };
    let id = id_value(alloc, agent.as_text())?;
    put(members, alloc, "agent_id", id)
}

/// Inserts the id of an update, where there is one.
fn put_uuid(
    members: &mut Map<String, Value>,
    alloc: Global,
    update: &Option<UpdateId>,
) -> Result<(), AllocError>
    ensures { OnOk result (members_view members.new.entries
        ≡ with_uuid (option_map update_text update.now) (members_view members.old.entries)) }
{
    let Some(update) = update else {
        return Ok(());
    };
    let Ok(uuid) = update.to_text(alloc) else {
        return Err(AllocError);
    };
    put(members, alloc, "uuid", Value::String(uuid))
}

/// Inserts the members of a state into an empty object.
fn put_status(
    members: &mut Map<String, Value>,
    alloc: Global,
    status: &TaskStatus,
) -> Result<(), AllocError>
    requires { members.old.entries ≡ [] }
    ensures value { OnOk result (object (members_view members.new.entries)
        ≡ status_data status.now) }
    ensures bounds { OnOk result (IsStatus status.now) }
{
    put_agent(members, alloc, &status.agent)?;
    let state = Value::try_from_str(alloc, status.state.as_text())?;
    put(members, alloc, "state", state)?;
    let task = id_value(alloc, status.task.as_text())?;
    put(members, alloc, "task_id", task)?;
    put_uuid(members, alloc, &status.update)
}

/// The state of a task. Its agent and the id of its update are absent where there is none.
pub fn status_value(alloc: Global, status: &TaskStatus) -> Result<Value, AllocError>
    ensures value { IfOk result (λ v. view v ≡ status_data status.now) }
    ensures bounds { IfOk result (λ _. IsStatus status.now) }
{
    let mut members = Map::new(alloc);
    put_status(&mut members, alloc, status)?;
    Ok(Value::Object(members))
}
