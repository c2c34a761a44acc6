//! Ids as objects.

ghost use Rattle.std.specs.Prelude.{◌≡◌, IfOk};
ghost use Rattle.names_core.specs.Ids.{InRange};
ghost use Rattle.serde_json.specs.View.{view};
ghost use Rattle.event_json.specs.Ids.{id_data, framework_data, offer_id_data};

use names_core::{FrameworkId, OfferId};
use serde_json::{Value, json};
use std::alloc::{AllocError, Global};

/// The text of an id, as an object.
pub fn id_value(alloc: Global, text: &str) -> Result<Value, AllocError>
    ensures { IfOk result (λ v. view v ≡ id_data text.now) }
{
    json!(in alloc; {"value": text})
}

/// The id of a framework, as an object.
pub fn framework_value(alloc: Global, id: &FrameworkId) -> Result<Value, AllocError>
    ensures value { IfOk result (λ v. view v ≡ framework_data id.now) }
    ensures range { InRange id.now }
{
    match id.to_text(alloc) {
        Ok(text) => json!(in alloc; {"value": text}),
        Err(_) => Err(AllocError),
    }
}

/// The id of an offer, as an object.
pub fn offer_id_value(alloc: Global, id: &OfferId) -> Result<Value, AllocError>
    ensures value { IfOk result (λ v. view v ≡ offer_id_data id.now) }
    ensures range { InRange id.now }
{
    match id.to_text(alloc) {
        Ok(text) => json!(in alloc; {"value": text}),
        Err(_) => Err(AllocError),
    }
}
