//! Records written as JSON.

ghost use Rattle.std.specs.Prelude.{◌≡◌, [], ℕ, IfOk, OnOk, string_bytes, ◌<◌};
ghost use Rattle.std.specs.List.{AllByRecursion};
ghost use Rattle.serde_json.specs.Data.{array, object, string};
ghost use Rattle.serde_json.specs.View.{view, members_view};
ghost use Rattle.names_core.specs.Ids.{InRange, id_text};
ghost use Rattle.names_core.specs.States.{state_text};
ghost use Rattle.quantity.specs.Rows.{AreRows};
ghost use Rattle.event_json.specs.Texts.{row_members, amounts, list_data, task_data, versioned, with_job, record_data, record_form, first_form};
ghost use Rattle.event_json.specs.Written.{IsJob, IsTask, IsDurable};

use messages::{Job, RecordParts, RecordedTask};
use names_core::{FrameworkId, LaunchKey, OfferId, TaskState};
use quantity::{Resources, Row};
use serde_json::{Map, Value, put};
use std::alloc::{AllocError, Global};
use values::Shared;

fn members_of(alloc: Global, rows: &[Row]) -> Result<Map<String, Value>, AllocError>
    requires { AreRows rows.now }
    ensures { IfOk result (λ m. members_view m.entries ≡ row_members rows.now) }
{
    let mut members = Map::new(alloc);
    for row in rows {
        let name = String::from_str(alloc, row.name.as_str())?;
        drop(members.insert(name, Value::from(row.amount))?);
    }
    Ok(members)
}

/// Amounts as an object: each under its resource's name.
pub fn amounts_value(alloc: Global, resources: &Resources) -> Result<Value, AllocError>
    ensures value { IfOk result (λ v. view v ≡ amounts resources.now) }
    ensures ordered { AreRows resources.now }
{
    Ok(Value::Object(members_of(alloc, resources.rows())?))
}

/// The ids of offers, as an array of texts.
pub fn offers_value(alloc: Global, offers: &[OfferId]) -> Result<Value, AllocError>
    ensures value { IfOk result
        (λ v. view v ≡ list_data (λ offer. string (id_text 79 offer)) offers.now) }
    ensures in_range { IfOk result (λ _. AllByRecursion InRange offers.now) }
{
    let mut values = Vec::with_capacity(alloc, offers.len())?;
    for offer in offers {
        let Ok(text) = offer.to_text(alloc) else {
            return Err(AllocError);
        };
        values.push(Value::String(text))?;
    }
    Ok(Value::Array(values))
}

fn states_value(alloc: Global, states: &[TaskState]) -> Result<Value, AllocError>
    ensures { IfOk result (λ v. view v ≡ list_data (λ state. string (state_text state))
        states.now) }
{
    let mut values = Vec::with_capacity(alloc, states.len())?;
    for state in states {
        values.push(Value::String(String::from_str(alloc, state.as_text())?))?;
    }
    Ok(Value::Array(values))
}

/// The id of a framework as a text.
pub fn framework_value(alloc: Global, framework: &FrameworkId) -> Result<Value, AllocError>
    ensures value { IfOk result (λ v. view v ≡ string (id_text 70 framework.now)) }
    ensures in_range { IfOk result (λ _. InRange framework.now) }
{
    match framework.to_text(alloc) {
        Ok(text) => Ok(Value::String(text)),
        Err(_) => Err(AllocError),
    }
}

/// A launch key as a text.
pub fn key_value(alloc: Global, key: &LaunchKey) -> Result<Value, AllocError>
    ensures value { IfOk result (λ v. view v ≡ string (id_text 76 key.now)) }
    ensures in_range { IfOk result (λ _. InRange key.now) }
{
    match key.to_text(alloc) {
        Ok(text) => Ok(Value::String(text)),
        Err(_) => Err(AllocError),
    }
}

/// Inserts the framework, key, name and resources of a task.
pub fn put_job(members: &mut Map<String, Value>, alloc: Global, job: &Job) -> Result<(), AllocError>
    ensures members { OnOk result (members_view members.new.entries
        ≡ with_job job.now (members_view members.old.entries)) }
    ensures is_job { OnOk result (IsJob job.now) }
{
    let framework = framework_value(alloc, &job.framework)?;
    put(members, alloc, "framework", framework)?;
    let key = key_value(alloc, &job.key)?;
    put(members, alloc, "key", key)?;
    let name = Value::try_from_str(alloc, job.name.as_text())?;
    put(members, alloc, "name", name)?;
    let resources = amounts_value(alloc, &job.resources)?;
    put(members, alloc, "resources", resources)
}

/// Inserts the members of a task into an empty object.
#[tactic(auto, unfolding(crate::specs::Texts::task_data))]
fn put_task(
    members: &mut Map<String, Value>,
    alloc: Global,
    task: &RecordedTask,
) -> Result<(), AllocError>
    requires { members.old.entries ≡ [] }
    ensures value { OnOk result (object (members_view members.new.entries) ≡ task_data task.now) }
    ensures is_task { OnOk result (IsTask task.now) }
{
    put_job(members, alloc, &task.job)?;
    let acked = Value::from(task.updates.acknowledged());
    put(members, alloc, "acked", acked)?;
    let offers = offers_value(alloc, task.offers.as_slice())?;
    put(members, alloc, "offers", offers)?;
    let updates = states_value(alloc, task.updates.states())?;
    put(members, alloc, "updates", updates)
}

pub fn task_value(alloc: Global, task: &RecordedTask) -> Result<Value, AllocError>
    ensures value { IfOk result (λ v. view v ≡ task_data task.now) }
    ensures is_task { IfOk result (λ _. IsTask task.now) }
{
    let mut members = Map::new(alloc);
    put_task(&mut members, alloc, task)?;
    Ok(Value::Object(members))
}

fn tasks_value(alloc: Global, tasks: &[Shared<RecordedTask>]) -> Result<Value, AllocError>
    ensures value { IfOk result (λ v. view v ≡ list_data task_data tasks.now) }
    ensures are_tasks { IfOk result (λ _. AllByRecursion IsTask tasks.now) }
{
    let mut values = Vec::with_capacity(alloc, tasks.len())?;
    for task in tasks {
        values.push(task_value(alloc, task)?)?;
    }
    Ok(Value::Array(values))
}

/// Inserts the members of a record into an empty object, all but its version.
fn put_record(
    members: &mut Map<String, Value>,
    alloc: Global,
    durable: &RecordParts,
) -> Result<(), AllocError>
    requires { members.old.entries ≡ [] }
    ensures value { (version : ℕ)
        → OnOk result (versioned version (members_view members.new.entries)
        ≡ record_data version durable.now) }
    ensures durable { OnOk result (IsDurable durable.now) }
{
    let run = durable.run;
    let session = durable.session;
    let name = Value::try_from_str(alloc, durable.name.as_text())?;
    put(members, alloc, "name", name)?;
    put(members, alloc, "run", Value::from(run))?;
    put(members, alloc, "session", Value::from(session))?;
    let tasks = tasks_value(alloc, durable.tasks.as_slice())?;
    put(members, alloc, "tasks", tasks)?;
    let total = amounts_value(alloc, &durable.total)?;
    put(members, alloc, "total", total)
}

fn record_value(alloc: Global, durable: &RecordParts, version: u64) -> Result<Value, AllocError>
    ensures value { IfOk result (λ v. view v ≡ record_data version durable.now) }
    ensures durable { IfOk result (λ _. IsDurable durable.now) }
{
    let mut members = Map::new(alloc);
    put_record(&mut members, alloc, durable)?;
    put(&mut members, alloc, "version", Value::from(version))?;
    Ok(Value::Object(members))
}

/// The written form of a record: compact JSON (RFC 8259), in which an object's members are in byte
/// order of their names, and tasks by launch key; its version is 2.
pub fn record_text(alloc: Global, durable: &RecordParts) -> Result<String, AllocError>
    ensures text { IfOk result (λ text. string_bytes text ≡ record_form durable.now) }
    ensures durable { IfOk result (λ _. IsDurable durable.now) }
{
    let value = record_value(alloc, durable, 2)?;
    value.to_string(alloc)
}

/// The written form that a record had before: with another version, and else the same.
pub fn first_text(alloc: Global, durable: &RecordParts) -> Result<String, AllocError>
    ensures text { IfOk result (λ text. string_bytes text ≡ first_form durable.now) }
    ensures durable { IfOk result (λ _. IsDurable durable.now) }
{
    let value = record_value(alloc, durable, 1)?;
    value.to_string(alloc)
}
