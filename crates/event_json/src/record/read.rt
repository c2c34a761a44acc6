//! Records read from JSON.

ghost use Rattle.std.specs.Prelude.{◌≡◌, Some, IfOk, IfErr};
ghost use Rattle.serde_json.specs.View.{view};
ghost use Rattle.serde_json.specs.Read.{read};
ghost use Rattle.messages.specs.declared.record.RecordParts.{RecordParts};
ghost use Rattle.event_json.specs.Reading.{Gives, is_form_of, parts_of, record_in};
ghost use Rattle.event_json.specs.Written.{IsDurable, IsWritten};
ghost use Rattle.event_json.specs.declared.record.fault.RecordFault.TheVariants as faults;

use crate::record::fault::RecordFault;
use crate::record::members::{agent_in, number_in, resources_in};
use crate::record::task::tasks_in;
use crate::record::write::{first_text, record_text};
use messages::RecordParts;
use serde_json::Value;
use std::alloc::{AllocError, Global};
use values::Listed;

#[tactic(auto, unfolding(crate::specs::Reading::parts_of))]
fn parts_of(alloc: Global, value: &Value) -> Result<RecordParts, RecordFault>
    ensures { Gives (λ d. d) result (parts_of (view value.now)) }
{
    let name = agent_in(alloc, value, "name")?;
    let Some(run) = number_in(value, "run") else {
        return Err(RecordFault::Damaged);
    };
    let Some(session) = number_in(value, "session") else {
        return Err(RecordFault::Damaged);
    };
    let tasks = tasks_in(alloc, value)?;
    let total = resources_in(alloc, value, "total")?;
    Ok(RecordParts {
        name,
        total,
        session,
        run,
        tasks: Listed::from_vec(tasks),
    })
}

pub fn value_of(alloc: Global, text: &str) -> Result<Value, RecordFault>
    ensures { Gives view result (read text.now) }
{
    match Value::from_str(alloc, text) {
        Ok(value) => Ok(value),
        Err(e) => {
            if e.is_memory() {
                Err(RecordFault::OutOfMemory)
            } else {
                Err(RecordFault::Damaged)
            }
        }
    }
}

/// Whether a text is the written form of a record, in either version.
fn is_form_of(alloc: Global, text: &str, durable: &RecordParts) -> Result<bool, AllocError>
    ensures form { IfOk result (λ is. is ≡ is_form_of durable.now text.now) }
    ensures durable { IfOk result (λ _. IsDurable durable.now) }
{
    let form = record_text(alloc, durable)?;
    if form.as_str() == text {
        return Ok(true);
    }
    let first = first_text(alloc, durable)?;
    Ok(first.as_str() == text)
}

#[tactic(auto, unfolding(crate::specs::Reading::record_in))]
fn read_form(alloc: Global, text: &str) -> Result<RecordParts, RecordFault>
    ensures found { IfOk result (λ d. IsWritten d text.now) }
    ensures exact { Gives (λ d. d) result (record_in text.now) }
{
    let value = value_of(alloc, text)?;
    let record = parts_of(alloc, &value)?;
    if !is_form_of(alloc, text, &record)? {
        return Err(RecordFault::Damaged);
    }
    Ok(record)
}

/// The record that a text is the written form of, of version 2 or 1, and nothing else: other
/// spaces, members, or another order of members are refused. Whether an agent can have it isn't
/// looked at.
///
/// `K2 Damaged` where the text is no record's written form; `K4 OutOfMemory` may come before it.
pub fn record_of(alloc: Global, text: &str) -> Result<RecordParts, RecordFault>
    ensures found { IfOk result (λ d. IsWritten d text.now) }
    ensures only { (d : RecordParts) → IsWritten d text.now
        → Gives (λ found. found) result (Some d) }
{
    read_form(alloc, text)
}
