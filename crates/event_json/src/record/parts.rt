//! Tasks and totals of a record as texts of their own, both ways.

ghost use Rattle.std.specs.Prelude.{◌≡◌, Some, None, IfOk, string_bytes};
ghost use Rattle.serde_json.specs.View.{view};
ghost use Rattle.quantity.specs.Rows.{AreRows};
ghost use Rattle.event_json.specs.Texts.{task_form, total_form};
ghost use Rattle.event_json.specs.Reading.{Gives, task_in, total_of, total_in};
ghost use Rattle.event_json.specs.Written.{IsTask};

use crate::record::fault::RecordFault;
use crate::record::members::all_of;
use crate::record::read::value_of;
use crate::record::task::task_of;
use crate::record::write::{amounts_value, task_value};
use messages::RecordedTask;
use quantity::Resources;
use serde_json::Value;
use std::alloc::{AllocError, Global};
use values::Shared;

/// The written form of a task: compact JSON, as it is in its record's.
pub fn task_text(alloc: Global, task: &RecordedTask) -> Result<String, AllocError>
    ensures text { IfOk result (λ text. string_bytes text ≡ task_form task.now) }
    ensures is_task { IfOk result (λ _. IsTask task.now) }
{
    let value = task_value(alloc, task)?;
    value.to_string(alloc)
}

/// The task that a text is the written form of, and nothing else. `K2 Damaged` where it is none's;
/// `K4 OutOfMemory` may come before it.
#[tactic(auto, unfolding(crate::specs::Reading::task_in))]
pub fn task_of_text(alloc: Global, text: &str) -> Result<Shared<RecordedTask>, RecordFault>
    ensures form { IfOk result (λ t. text.now ≡ task_form t) }
    ensures is_task { IfOk result IsTask }
    ensures exact { Gives (λ t. t) result (task_in text.now) }
{
    let value = value_of(alloc, text)?;
    let task = task_of(alloc, &value)?;
    let form = task_text(alloc, &task)?;
    if form.as_str() != text {
        return Err(RecordFault::Damaged);
    }
    Ok(task)
}

/// The written form of a total: compact JSON, as it is in its record's.
pub fn total_text(alloc: Global, total: &Resources) -> Result<String, AllocError>
    ensures text { IfOk result (λ text. string_bytes text ≡ total_form total.now) }
    ensures ordered { AreRows total.now }
{
    let value = amounts_value(alloc, total)?;
    value.to_string(alloc)
}

fn total_of(alloc: Global, value: &Value) -> Result<Resources, RecordFault>
    ensures { Gives (λ r. r) result (total_of (view value.now)) }
{
    let Some(members) = value.as_object() else {
        return Err(RecordFault::Damaged);
    };
    all_of(alloc, members)
}

/// The total that a text is the written form of, and nothing else. `K2 Damaged` where it is none's;
/// `K4 OutOfMemory` may come before it.
#[tactic(auto, unfolding(crate::specs::Reading::total_in))]
pub fn total_of_text(alloc: Global, text: &str) -> Result<Resources, RecordFault>
    ensures form { IfOk result (λ rows. text.now ≡ total_form rows) }
    ensures ordered { IfOk result AreRows }
    ensures exact { Gives (λ r. r) result (total_in text.now) }
{
    let value = value_of(alloc, text)?;
    let total = total_of(alloc, &value)?;
    let form = total_text(alloc, &total)?;
    if form.as_str() != text {
        return Err(RecordFault::Damaged);
    }
    Ok(total)
}
