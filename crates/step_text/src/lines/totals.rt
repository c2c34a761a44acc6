//! What an agent owns.

ghost use Rattle.std.specs.Prelude.{◌≡◌, []};
ghost use Rattle.serde_json.specs.View.{view, members_view};
ghost use Rattle.step_text.specs.Answers.{Gives, or_refused};
ghost use Rattle.step_text.specs.Totals as totals;

use crate::lines::fault::{LineFault, LineRefusal};
use quantity::{QuantityFault, Resources};
use serde_json::{Map, Value};
use std::alloc::Global;

/// An amount of a name more.
fn add(
    alloc: Global,
    refusal: LineRefusal,
    resources: &mut Resources,
    name: &str,
    value: &Value,
) -> Result<(), LineFault>
    ensures { Gives (λ _. resources.new) result
        (or_refused refusal (totals.more_of name.now (view value.now) resources.old)) }
{
    let Some(amount) = value.as_u64() else {
        return Err(LineFault::Refused(refusal));
    };
    if amount == 0 {
        return Err(LineFault::Refused(refusal));
    }
    match resources.add(alloc, name, amount) {
        Ok(()) => Ok(()),
        Err(QuantityFault::OutOfMemory) => Err(LineFault::OutOfMemory),
        Err(_) => Err(LineFault::Refused(refusal)),
    }
}

fn rows_of(
    alloc: Global,
    refusal: LineRefusal,
    members: &Map<String, Value>,
) -> Result<Resources, LineFault>
    ensures { Gives (λ r. r) result
        (or_refused refusal (totals.rows_in [] (members_view members.now.entries))) }
{
    let mut resources = Resources::new(alloc);
    for (name, value) in members.iter() {
        add(alloc, refusal, &mut resources, name.as_str(), value)?;
    }
    Ok(resources)
}

/// What an agent owns, which may be nothing: up to 8 amounts, each a whole number from 1 to 2^40.
/// Every other value is refused with `refusal`.
pub fn total_of(alloc: Global, refusal: LineRefusal, value: &Value) -> Result<Resources, LineFault>
    ensures { Gives (λ r. r) result (or_refused refusal (totals.total_of (view value.now))) }
{
    match value.as_object() {
        Some(members) => rows_of(alloc, refusal, members),
        None => Err(LineFault::Refused(refusal)),
    }
}
