//! Offers.

ghost use Rattle.std.specs.Prelude.{◌≡◌, map, IfOk};
ghost use Rattle.std.specs.List.{AllByRecursion};
ghost use Rattle.serde_json.specs.Data.{array};
ghost use Rattle.serde_json.specs.View.{view, items_of};
ghost use Rattle.event_json.specs.Bounds.{IsOffer};
ghost use Rattle.event_json.specs.Offers.{row_data, offer_data};

use crate::object::{framework_value, id_value, offer_id_value};
use messages::SentOffer;
use quantity::Row;
use serde_json::{Value, json};
use std::alloc::{AllocError, Global};

/// An amount of a resource.
fn row_value(alloc: Global, row: &Row) -> Result<Value, AllocError>
    ensures { IfOk result (λ v. view v ≡ row_data row.now) }
{
    json!(in alloc; {
        "name": row.name.as_str(),
        "role": "*",
        "scalar": {"value": row.amount},
        "type": "SCALAR"
    })
}

fn rows_value(alloc: Global, rows: &[Row]) -> Result<Value, AllocError>
    ensures { IfOk result (λ v. view v ≡ array (items_of (map row_data rows.now))) }
{
    let mut values = Vec::with_capacity(alloc, rows.len())?;
    for row in rows {
        values.push(row_value(alloc, row)?)?;
    }
    Ok(Value::Array(values))
}

/// An offer. The name of its agent's host is the agent's.
fn offer_value(alloc: Global, offer: &SentOffer) -> Result<Value, AllocError>
    ensures value { IfOk result (λ v. view v ≡ offer_data offer.now) }
    ensures bounds { IfOk result (λ _. IsOffer offer.now) }
{
    json!(in alloc; {
        "agent_id": id_value(alloc, offer.agent.as_text())?,
        "framework_id": framework_value(alloc, &offer.framework)?,
        "hostname": offer.agent.as_text(),
        "id": offer_id_value(alloc, &offer.id)?,
        "resources": rows_value(alloc, offer.resources.rows())?
    })
}

/// A list of offers.
pub fn offers_value(alloc: Global, offers: &[SentOffer]) -> Result<Value, AllocError>
    ensures value { IfOk result (λ v. view v ≡ array (items_of (map offer_data offers.now))) }
    ensures bounds { IfOk result (λ _. AllByRecursion IsOffer offers.now) }
{
    let mut values = Vec::with_capacity(alloc, offers.len())?;
    for offer in offers {
        values.push(offer_value(alloc, offer)?)?;
    }
    Ok(Value::Array(values))
}
