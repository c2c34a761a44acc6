//! Lists of a task's record.

ghost use Rattle.std.specs.Prelude.{◌≡◌, map, []};
ghost use Rattle.serde_json.specs.View.{view};
ghost use Rattle.event_json.specs.Reading.{Gives, adds, each_in, offer_of, update_of, offers_in, updates_in};

use crate::record::fault::RecordFault;
use crate::record::members::{list_in, number_in};
use names_core::{OfferId, TaskState};
use serde_json::Value;
use std::alloc::Global;
use stream_core::Updates;

fn offer_of(value: &Value) -> Result<OfferId, RecordFault>
    ensures { Gives (λ i. i) result (offer_of (view value.now)) }
{
    let Some(text) = value.as_str() else {
        return Err(RecordFault::Damaged);
    };
    match OfferId::from_text(text) {
        Ok(id) => Ok(id),
        Err(_) => Err(RecordFault::Damaged),
    }
}

fn offers_of(alloc: Global, values: &[Value]) -> Result<Vec<OfferId>, RecordFault>
    ensures { Gives (λ v. v.items) result (each_in (adds offer_of) [] (map view values.now)) }
{
    let mut offers = Vec::with_capacity(alloc, values.len())?;
    for value in values {
        offers.push(offer_of(value)?)?;
    }
    Ok(offers)
}

#[tactic(auto, unfolding(crate::specs::Reading::offers_in))]
pub fn offers_in(alloc: Global, value: &Value) -> Result<Vec<OfferId>, RecordFault>
    ensures { Gives (λ v. v.items) result (offers_in (view value.now)) }
{
    let Some(values) = list_in(value, "offers") else {
        return Err(RecordFault::Damaged);
    };
    offers_of(alloc, values)
}

fn update_of(value: &Value) -> Result<TaskState, RecordFault>
    ensures { Gives (λ s. s) result (update_of (view value.now)) }
{
    let Some(text) = value.as_str() else {
        return Err(RecordFault::Damaged);
    };
    match TaskState::from_text(text) {
        Some(state) => Ok(state),
        None => Err(RecordFault::Damaged),
    }
}

fn states_of(alloc: Global, values: &[Value]) -> Result<Vec<TaskState>, RecordFault>
    ensures { Gives (λ v. v.items) result (each_in (adds update_of) [] (map view values.now)) }
{
    let mut states = Vec::with_capacity(alloc, values.len())?;
    for value in values {
        states.push(update_of(value)?)?;
    }
    Ok(states)
}

#[tactic(auto, unfolding(crate::specs::Reading::updates_in))]
pub fn updates_in(alloc: Global, value: &Value) -> Result<Updates, RecordFault>
    ensures { Gives (λ u. u) result (updates_in (view value.now)) }
{
    let Some(count) = number_in(value, "acked") else {
        return Err(RecordFault::Damaged);
    };
    let Some(values) = list_in(value, "updates") else {
        return Err(RecordFault::Damaged);
    };
    let states = states_of(alloc, values)?;
    match Updates::from_parts(states, count) {
        Some(updates) => Ok(updates),
        None => Err(RecordFault::Damaged),
    }
}
