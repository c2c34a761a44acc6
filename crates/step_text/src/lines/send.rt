//! Steps of a framework.

ghost use Rattle.std.specs.Prelude.{◌≡◌, Ok, option_map};
ghost use Rattle.messages.specs.declared.steps.step.Step.TheVariants.{Send};
ghost use Rattle.serde_json.specs.View.{view};
ghost use Rattle.step_text.specs.Answers.{Gives, wanted};
ghost use Rattle.step_text.specs.Lines as lines;

use crate::lines::fault::{LineFault, LineRefusal, NOT_A_STEP};
use crate::lines::members::{has_members, stream_in};
use call_json::{CallFault, call_of};
use messages::{Call, Step};
use names_core::StreamId;
use serde_json::Value;
use std::alloc::Global;
use values::Shared;

/// The stream, which may be absent, but not wrong.
fn maybe_stream(value: &Value) -> Result<Option<StreamId>, LineFault>
    ensures { Gives (λ s. s) result (wanted (lines.maybe_stream (view value.now))) }
{
    if value.get("stream").is_none() {
        return Ok(None);
    }
    match stream_in(value) {
        Some(stream) => Ok(Some(stream)),
        None => Err(NOT_A_STEP),
    }
}

fn send_members(value: &Value) -> usize
    ensures { result ≡ lines.send_members (view value.now) }
{
    if value.get("stream").is_some() { 3 } else { 2 }
}

/// A Send of a call, which is stored once and shared.
fn sent(alloc: Global, stream: Option<StreamId>, call: Call) -> Result<Step, LineFault>
    ensures { Gives (λ s. s) result (Ok (Send stream call)) }
{
    match Shared::new(alloc, call) {
        Ok(call) => Ok(Step::Send { stream, call }),
        Err(_) => Err(LineFault::OutOfMemory),
    }
}

#[tactic(auto, unfolding(crate::specs::Lines::send_of))]
pub fn send(alloc: Global, value: &Value) -> Result<Step, LineFault>
    ensures { Gives (λ s. s) result (lines.send_of (view value.now)) }
{
    if !has_members(value, send_members(value)) {
        return Err(NOT_A_STEP);
    }
    let stream = maybe_stream(value)?;
    let Some(call) = value.get("call") else {
        return Err(NOT_A_STEP);
    };
    match call_of(alloc, call) {
        Ok(call) => sent(alloc, stream, call),
        Err(CallFault::Refused(refusal)) => Err(LineFault::Refused(LineRefusal::BadCall(refusal))),
        Err(CallFault::OutOfMemory) => Err(LineFault::OutOfMemory),
    }
}
