//! Members of a JSON object.

ghost use Rattle.std.specs.Prelude.{◌≡◌, map, option_map, []};
ghost use Rattle.serde_json.specs.View.{view, members_view};
ghost use Rattle.event_json.specs.Reading.{Gives, text_in, number_in, list_in, name_in, resources_in, rows_in, more_of};

use crate::record::fault::RecordFault;
use names_core::{AgentName, NameFault, TaskName};
use quantity::{QuantityFault, Resources};
use serde_json::{Map, Value};
use std::alloc::Global;

pub fn text_in<'a>(value: &'a Value, name: &str) -> Option<&'a str>
    ensures { option_map (λ s. s.now) result ≡ text_in name.now (view value.now) }
{
    value.get(name)?.as_str()
}

pub fn number_in(value: &Value, name: &str) -> Option<u32>
    ensures { result ≡ number_in name.now (view value.now) }
{
    let number = value.get(name)?.as_u64()?;
    u32::try_from(number).ok()
}

pub fn list_in<'a>(value: &'a Value, name: &str) -> Option<&'a [Value]>
    ensures { option_map (λ s. map view s.now) result ≡ list_in name.now (view value.now) }
{
    let list = value.get(name)?.as_array()?;
    Some(list.as_slice())
}

pub fn agent_in(alloc: Global, value: &Value, name: &str) -> Result<AgentName, RecordFault>
    ensures { Gives (λ n. n) result (name_in name.now (view value.now)) }
{
    let Some(text) = text_in(value, name) else {
        return Err(RecordFault::Damaged);
    };
    match AgentName::from_text(alloc, text) {
        Ok(name) => Ok(name),
        Err(NameFault::BadName) => Err(RecordFault::Damaged),
        Err(_) => Err(RecordFault::OutOfMemory),
    }
}

pub fn task_name_in(alloc: Global, value: &Value, name: &str) -> Result<TaskName, RecordFault>
    ensures { Gives (λ n. n) result (name_in name.now (view value.now)) }
{
    let Some(text) = text_in(value, name) else {
        return Err(RecordFault::Damaged);
    };
    match TaskName::from_text(alloc, text) {
        Ok(name) => Ok(name),
        Err(NameFault::BadName) => Err(RecordFault::Damaged),
        Err(_) => Err(RecordFault::OutOfMemory),
    }
}

/// An amount more.
fn add(
    alloc: Global,
    resources: &mut Resources,
    name: &str,
    value: &Value,
) -> Result<(), RecordFault>
    ensures { Gives (λ _. resources.new) result (more_of name.now (view value.now) resources.old) }
{
    let Some(amount) = value.as_u64() else {
        return Err(RecordFault::Damaged);
    };
    match resources.add(alloc, name, amount) {
        Ok(()) => Ok(()),
        Err(QuantityFault::OutOfMemory) => Err(RecordFault::OutOfMemory),
        Err(_) => Err(RecordFault::Damaged),
    }
}

pub fn all_of(alloc: Global, members: &Map<String, Value>) -> Result<Resources, RecordFault>
    ensures { Gives (λ r. r) result (rows_in [] (members_view members.now.entries)) }
{
    let mut resources = Resources::new(alloc);
    for (name, value) in members.iter() {
        add(alloc, &mut resources, name.as_str(), value)?;
    }
    Ok(resources)
}

pub fn resources_in(alloc: Global, value: &Value, name: &str) -> Result<Resources, RecordFault>
    ensures { Gives (λ r. r) result (resources_in name.now (view value.now)) }
{
    let Some(members) = value.get(name).and_then(Value::as_object) else {
        return Err(RecordFault::Damaged);
    };
    all_of(alloc, members)
}
