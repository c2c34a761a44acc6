//! Members of a line.

ghost use Rattle.std.specs.Prelude.{◌≡◌, option_map};
ghost use Rattle.serde_json.specs.View.{view};
ghost use Rattle.step_text.specs.Answers.{Gives, wanted};
ghost use Rattle.step_text.specs.Members as members;

use crate::lines::fault::{LineFault, NOT_A_STEP};
use messages::{ExecutorState, Keep};
use names_core::{AgentName, LaunchKey, NameFault, StreamId};
use serde_json::Value;
use std::alloc::Global;

/// Whether a value is an object with so many members.
pub fn has_members(value: &Value, count: usize) -> bool
    ensures { result ≡ members.has_members count (view value.now) }
{
    match value.as_object() {
        Some(map) => map.len() == count,
        None => false,
    }
}

pub fn text_in<'a>(value: &'a Value, name: &str) -> Option<&'a str>
    ensures { option_map (λ s. s.now) result ≡ members.text_in name.now (view value.now) }
{
    value.get(name)?.as_str()
}

pub fn number_in(value: &Value, name: &str) -> Option<u64>
    ensures { result ≡ members.number_in name.now (view value.now) }
{
    value.get(name)?.as_u64()
}

/// A moment, in seconds.
pub fn moment_in(value: &Value) -> Option<u32>
    ensures { result ≡ members.moment_in (view value.now) }
{
    let now = number_in(value, "now")?;
    u32::try_from(now).ok()
}

pub fn agent_in(alloc: Global, value: &Value) -> Result<AgentName, LineFault>
    ensures { Gives (λ n. n) result (wanted (members.agent_in (view value.now))) }
{
    let Some(text) = text_in(value, "agent") else {
        return Err(NOT_A_STEP);
    };
    match AgentName::from_text(alloc, text) {
        Ok(name) => Ok(name),
        Err(NameFault::BadName) => Err(NOT_A_STEP),
        Err(_) => Err(LineFault::OutOfMemory),
    }
}

pub fn stream_in(value: &Value) -> Option<StreamId>
    ensures { result ≡ members.stream_in (view value.now) }
{
    StreamId::from_text(text_in(value, "stream")?).ok()
}

pub fn key_in(value: &Value) -> Option<LaunchKey>
    ensures { result ≡ members.key_in (view value.now) }
{
    LaunchKey::from_text(text_in(value, "launch")?).ok()
}

#[tactic(auto, unfolding(crate::specs::Members::reported_state))]
fn reported_state(text: &str) -> Option<ExecutorState>
    ensures { result ≡ members.reported_state text.now }
{
    match text {
        "TASK_RUNNING" => Some(ExecutorState::Running),
        "TASK_FINISHED" => Some(ExecutorState::Finished),
        "TASK_FAILED" => Some(ExecutorState::Failed),
        _ => None,
    }
}

/// The state that an executor reports.
pub fn state_in(value: &Value) -> Option<ExecutorState>
    ensures { result ≡ members.state_in (view value.now) }
{
    reported_state(text_in(value, "state")?)
}

#[tactic(auto, unfolding(crate::specs::Members::kept))]
fn kept(text: &str) -> Option<Keep>
    ensures { result ≡ members.kept text.now }
{
    match text {
        "before" => Some(Keep::Before),
        "after" => Some(Keep::After),
        _ => None,
    }
}

/// What an agent that stops is recovered from.
pub fn keep_in(value: &Value) -> Option<Keep>
    ensures { result ≡ members.keep_in (view value.now) }
{
    kept(text_in(value, "keep")?)
}
