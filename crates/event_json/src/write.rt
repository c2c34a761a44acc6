//! Events as texts.

ghost use Rattle.std.specs.Prelude.{◌≡◌, ◌≤◌, length, IfOk};
ghost use Rattle.std.specs.List.{AllByRecursion};
ghost use Rattle.names_core.specs.Ids.{InRange};
ghost use Rattle.serde_json.specs.View.{view};
ghost use Rattle.event_json.specs.Bounds.{IsEvent, IsOffer, IsStatus, longest};
ghost use Rattle.event_json.specs.Events.{error_data, event_data, event_text, failure_data, heartbeat_data, offered_data, rescind_data, subscribed_data, updated_data};

use crate::object::{framework_value, id_value, offer_id_value};
use crate::offer::offers_value;
use crate::status::status_value;
use messages::{Event, SentOffer, TaskStatus};
use names_core::{FrameworkId, OfferId};
use serde_json::{Value, json};
use std::alloc::{AllocError, Global};

/// In seconds.
const HEARTBEAT_INTERVAL: u64 = 15;

fn subscribed(alloc: Global, framework: &FrameworkId) -> Result<Value, AllocError>
    ensures value { IfOk result (λ v. view v ≡ subscribed_data framework.now) }
    ensures range { IfOk result (λ _. InRange framework.now) }
{
    json!(in alloc; {
        "subscribed": {
            "framework_id": framework_value(alloc, framework)?,
            "heartbeat_interval_seconds": HEARTBEAT_INTERVAL
        },
        "type": "SUBSCRIBED"
    })
}

/// The event of offers.
fn offered(alloc: Global, offers: &[SentOffer]) -> Result<Value, AllocError>
    ensures value { IfOk result (λ v. view v ≡ offered_data offers.now) }
    ensures bounds { IfOk result (λ _. AllByRecursion IsOffer offers.now) }
{
    json!(in alloc; {"offers": {"offers": offers_value(alloc, offers)?}, "type": "OFFERS"})
}

fn rescind(alloc: Global, offer: &OfferId) -> Result<Value, AllocError>
    ensures value { IfOk result (λ v. view v ≡ rescind_data offer.now) }
    ensures range { IfOk result (λ _. InRange offer.now) }
{
    json!(in alloc; {"rescind": {"offer_id": offer_id_value(alloc, offer)?}, "type": "RESCIND"})
}

/// The event of a task's state.
fn update(alloc: Global, status: &TaskStatus) -> Result<Value, AllocError>
    ensures value { IfOk result (λ v. view v ≡ updated_data status.now) }
    ensures bounds { IfOk result (λ _. IsStatus status.now) }
{
    json!(in alloc; {"type": "UPDATE", "update": {"status": status_value(alloc, status)?}})
}

fn failure(alloc: Global, agent: &str) -> Result<Value, AllocError>
    ensures { IfOk result (λ v. view v ≡ failure_data agent.now) }
{
    json!(in alloc; {"failure": {"agent_id": id_value(alloc, agent)?}, "type": "FAILURE"})
}

fn error(alloc: Global, message: &str) -> Result<Value, AllocError>
    ensures { IfOk result (λ v. view v ≡ error_data message.now) }
{
    json!(in alloc; {"error": {"message": message}, "type": "ERROR"})
}

/// The event that says nothing.
fn heartbeat(alloc: Global) -> Result<Value, AllocError>
    ensures { IfOk result (λ v. view v ≡ heartbeat_data) }
{
    json!(in alloc; {"type": "HEARTBEAT"})
}

#[tactic(auto, unfolding(crate::specs::Events::event_data))]
fn value_of(alloc: Global, event: &Event) -> Result<Value, AllocError>
    ensures value { IfOk result (λ v. view v ≡ event_data event.now) }
    ensures bounds { IfOk result (λ _. IsEvent event.now) }
{
    match event {
        Event::Subscribed { framework } => subscribed(alloc, framework),
        Event::Offers { offers } => offered(alloc, offers.as_slice()),
        Event::Rescind { offer } => rescind(alloc, offer),
        Event::Update { status } => update(alloc, status),
        Event::Failure { agent } => failure(alloc, agent.as_text()),
        Event::Error { message } => error(alloc, message.as_text()),
        Event::Heartbeat => heartbeat(alloc),
    }
}

/// The text of an event: compact JSON (RFC 8259),
/// in which an object's members are in byte order of their names.
pub fn write_event(alloc: Global, event: &Event) -> Result<Vec<u8>, AllocError>
    ensures text { IfOk result (λ text. text.items ≡ event_text event.now) }
    ensures fits { IfOk result (λ text. length text.items ≤ longest) }
{
    let value = value_of(alloc, event)?;
    value.to_vec(alloc)
}
