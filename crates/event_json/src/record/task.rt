//! Tasks of a record.

ghost use Rattle.std.specs.Prelude.{◌≡◌, map, [], codes};
ghost use Rattle.serde_json.specs.View.{view};
ghost use Rattle.event_json.specs.Reading.{Gives, adds, each_in, id_in, task_of, tasks_in};

use crate::record::fault::RecordFault;
use crate::record::lists::{offers_in, updates_in};
use crate::record::members::{list_in, resources_in, task_name_in, text_in};
use messages::{Job, RecordedTask};
use names_core::{FrameworkId, LaunchKey};
use serde_json::Value;
use std::alloc::Global;
use values::{Listed, Shared};

fn framework_in(value: &Value) -> Result<FrameworkId, RecordFault>
    ensures { Gives (λ i. i) result (id_in 70 (codes "framework") (view value.now)) }
{
    let Some(text) = text_in(value, "framework") else {
        return Err(RecordFault::Damaged);
    };
    match FrameworkId::from_text(text) {
        Ok(id) => Ok(id),
        Err(_) => Err(RecordFault::Damaged),
    }
}

fn key_in(value: &Value) -> Result<LaunchKey, RecordFault>
    ensures { Gives (λ i. i) result (id_in 76 (codes "key") (view value.now)) }
{
    let Some(text) = text_in(value, "key") else {
        return Err(RecordFault::Damaged);
    };
    match LaunchKey::from_text(text) {
        Ok(id) => Ok(id),
        Err(_) => Err(RecordFault::Damaged),
    }
}

#[tactic(auto, unfolding(crate::specs::Reading::task_of))]
pub fn task_of(alloc: Global, value: &Value) -> Result<Shared<RecordedTask>, RecordFault>
    ensures { Gives (λ t. t) result (task_of (view value.now)) }
{
    let framework = framework_in(value)?;
    let key = key_in(value)?;
    let name = task_name_in(alloc, value, "name")?;
    let offers = offers_in(alloc, value)?;
    let resources = resources_in(alloc, value, "resources")?;
    let updates = updates_in(alloc, value)?;
    let task = RecordedTask {
        job: Job {
            key,
            framework,
            name,
            resources,
        },
        offers: Listed::from_vec(offers),
        updates,
    };
    Ok(Shared::new(alloc, task)?)
}

fn tasks_of(alloc: Global, values: &[Value]) -> Result<Vec<Shared<RecordedTask>>, RecordFault>
    ensures { Gives (λ v. v.items) result (each_in (adds task_of) [] (map view values.now)) }
{
    let mut tasks = Vec::with_capacity(alloc, values.len())?;
    for value in values {
        tasks.push(task_of(alloc, value)?)?;
    }
    Ok(tasks)
}

#[tactic(auto, unfolding(crate::specs::Reading::tasks_in))]
pub fn tasks_in(alloc: Global, value: &Value) -> Result<Vec<Shared<RecordedTask>>, RecordFault>
    ensures { Gives (λ v. v.items) result (tasks_in (view value.now)) }
{
    let Some(values) = list_in(value, "tasks") else {
        return Err(RecordFault::Damaged);
    };
    tasks_of(alloc, values)
}
