//! Where a line isn't as a configuration is to be, in words.

use call_json::trim;
use names_core::{AgentName, NameFault, RoleName};
use quantity::{QuantityFault, Resources};
use serde_json::{Map, Value};
use std::alloc::{AllocError, Global};

/// As many bytes as a line has at most.
const LONGEST_LINE: usize = 1_048_576;

/// As many agents as a configuration names at most.
const MOST_AGENTS: usize = 256;

/// As many roles as a configuration names at most.
const MOST_WEIGHTS: usize = 4_096;

/// As many bytes of a text of the line as are shown at most.
const MOST_SHOWN: usize = 64;

/// A value as a message shows it: the kind of a list, an object and a long text, and else its JSON.
fn shown(alloc: Global, value: &Value) -> Result<String, AllocError> {
    match value {
        Value::Object(_) => String::from_str(alloc, "an object"),
        Value::Array(_) => String::from_str(alloc, "a list"),
        Value::String(text) if text.len() > MOST_SHOWN => {
            let bytes = text.len();
            format!(in alloc; "a text of {bytes} bytes")
        }
        _ => value.to_string(alloc),
    }
}

/// Whether a name is shown as it is: none of its bytes can disturb a line.
fn is_plain(name: &str) -> bool {
    let bytes = name.as_bytes();
    bytes.iter().all(|b| b.is_ascii_graphic()) && !bytes.is_empty() && bytes.len() <= MOST_SHOWN
}

/// A member's name as a message shows it.
pub(crate) fn shown_name(alloc: Global, name: &str) -> Result<String, AllocError> {
    if is_plain(name) {
        return String::from_str(alloc, name);
    }
    let value = Value::try_from_str(alloc, name)?;
    shown(alloc, &value)
}

/// What is said of the member of an object.
fn of_member(
    alloc: Global,
    path: &str,
    name: &str,
    what: &str,
) -> Result<Option<String>, AllocError> {
    let name = shown_name(alloc, name)?;
    Ok(Some(format!(in alloc; "{path}.{name}: {what}")?))
}

/// What is said of a value that is no whole number from 1 to `most`.
fn of_number(
    alloc: Global,
    path: &str,
    name: &str,
    value: &Value,
    most: u64,
) -> Result<Option<String>, AllocError> {
    let shown = shown(alloc, value)?;
    let what = format!(in alloc; "{shown} is no whole number from 1 to {most}")?;
    of_member(alloc, path, name, &what)
}

/// Whether a value is a whole number from 1 to `most`.
fn is_in_range(value: &Value, most: u64) -> bool {
    match value.as_u64() {
        Some(number) => number >= 1 && number <= most,
        None => false,
    }
}

/// What is wrong with one amount of an agent, which is added to those before it.
fn amount_place(
    alloc: Global,
    total: &mut Resources,
    agent: &str,
    name: &str,
    value: &Value,
) -> Result<Option<String>, AllocError> {
    const MOST: u64 = 1 << 40;
    let amount = match value.as_u64() {
        Some(amount) if is_in_range(value, MOST) => amount,
        _ => return of_number(alloc, agent, name, value, MOST),
    };
    match total.add(alloc, name, amount) {
        Ok(()) => Ok(None),
        Err(QuantityFault::OutOfMemory) => Err(AllocError),
        Err(QuantityFault::TooManyNames) => {
            of_member(
                alloc,
                agent,
                name,
                "it is a ninth resource, and an agent has at most 8",
            )
        }
        Err(_) => of_member(
            alloc,
            agent,
            name,
            "a resource's name has 1 to 64 bytes, no control characters, spaces, `/` and `\\`",
        ),
    }
}

/// What is wrong with the amounts of an agent.
fn amounts_place(
    alloc: Global,
    agent: &str,
    amounts: &Map<String, Value>,
) -> Result<Option<String>, AllocError> {
    let mut total = Resources::new(alloc);
    for (name, value) in amounts.iter() {
        let place = amount_place(alloc, &mut total, agent, name.as_str(), value)?;
        if place.is_some() {
            return Ok(place);
        }
    }
    Ok(None)
}

/// Whether an agent can be configured under a name.
fn is_agent_name(alloc: Global, name: &str) -> Result<bool, AllocError> {
    match AgentName::from_text(alloc, name) {
        Ok(name) => Ok(name.can_be_configured()),
        Err(NameFault::OutOfMemory) => Err(AllocError),
        Err(_) => Ok(false),
    }
}

/// What is wrong with one agent.
fn agent_place(alloc: Global, name: &str, value: &Value) -> Result<Option<String>, AllocError> {
    const WANTED: &str = "an agent's name has 1 to 64 ASCII letters, digits, `-`, `_` and `.`";
    if !is_agent_name(alloc, name)? {
        return of_member(alloc, "agents", name, WANTED);
    }
    match value.as_object() {
        Some(amounts) => {
            let agent = format!(in alloc; "agents.{name}")?;
            amounts_place(alloc, &agent, amounts)
        }
        None => {
            let shown = shown(alloc, value)?;
            let what = format!(in alloc; "{shown} is no object of amounts, as {{\"cpus\":4}}")?;
            of_member(alloc, "agents", name, &what)
        }
    }
}

/// What is wrong with the agents.
fn agents_place(alloc: Global, agents: &Map<String, Value>) -> Result<Option<String>, AllocError> {
    for (name, value) in agents.iter() {
        let place = agent_place(alloc, name.as_str(), value)?;
        if place.is_some() {
            return Ok(place);
        }
    }
    let count = agents.len();
    if count >= 1 && count <= MOST_AGENTS {
        return Ok(None);
    }
    Ok(Some(format!(in alloc; "agents: {count} are named, and 1 to {MOST_AGENTS} may be")?))
}

/// What is wrong with the weight of one role.
fn weight_place(alloc: Global, name: &str, value: &Value) -> Result<Option<String>, AllocError> {
    match RoleName::from_text(alloc, name) {
        Ok(_) => {}
        Err(NameFault::OutOfMemory) => return Err(AllocError),
        Err(_) => return of_member(alloc, "weights", name, "it is no name of a role"),
    }
    if is_in_range(value, 1_000) {
        return Ok(None);
    }
    of_number(alloc, "weights", name, value, 1_000)
}

/// What is wrong with the weights.
fn weights_place(
    alloc: Global,
    weights: &Map<String, Value>,
) -> Result<Option<String>, AllocError> {
    let count = weights.len();
    if count > MOST_WEIGHTS {
        let place = format!(in alloc; "weights: {count} are named, and {MOST_WEIGHTS} may be")?;
        return Ok(Some(place));
    }
    for (name, value) in weights.iter() {
        let place = weight_place(alloc, name.as_str(), value)?;
        if place.is_some() {
            return Ok(place);
        }
    }
    Ok(None)
}

/// The object of a member of the line, or what is said where it is none.
fn object_at<'v>(
    alloc: Global,
    name: &str,
    value: &'v Value,
) -> Result<Result<&'v Map<String, Value>, String>, AllocError> {
    match value.as_object() {
        Some(object) => Ok(Ok(object)),
        None => {
            let shown = shown(alloc, value)?;
            Ok(Err(format!(in alloc; "{name}: {shown} is no object")?))
        }
    }
}

/// A member that a configuration doesn't have.
fn stray_place(alloc: Global, members: &Map<String, Value>) -> Result<Option<String>, AllocError> {
    for (name, _) in members.iter() {
        if name.as_str() != "agents" && name.as_str() != "weights" {
            let name = shown_name(alloc, name.as_str())?;
            return Ok(Some(format!(in alloc;
                "{name}: a configuration has `agents`, and may have `weights`"
            )?));
        }
    }
    Ok(None)
}

/// What is wrong with the member `agents`.
fn agents_member(
    alloc: Global,
    members: &Map<String, Value>,
) -> Result<Option<String>, AllocError> {
    let Some(value) = members.get("agents") else {
        return Ok(Some(String::from_str(alloc, "agents: the member is missing")?));
    };
    match object_at(alloc, "agents", value)? {
        Ok(agents) => agents_place(alloc, agents),
        Err(place) => Ok(Some(place)),
    }
}

/// What is wrong with the member `weights`, where there is one.
fn weights_member(
    alloc: Global,
    members: &Map<String, Value>,
) -> Result<Option<String>, AllocError> {
    let Some(value) = members.get("weights") else {
        return Ok(None);
    };
    match object_at(alloc, "weights", value)? {
        Ok(weights) => weights_place(alloc, weights),
        Err(place) => Ok(Some(place)),
    }
}

/// What is wrong with the members of a line: a stray one, then an agent, then a weight.
fn members_place(
    alloc: Global,
    members: &Map<String, Value>,
) -> Result<Option<String>, AllocError> {
    let stray = stray_place(alloc, members)?;
    if stray.is_some() {
        return Ok(stray);
    }
    let agents = agents_member(alloc, members)?;
    if agents.is_some() {
        return Ok(agents);
    }
    weights_member(alloc, members)
}

/// What is wrong with a line that is JSON, once its numbers are trimmed.
fn value_place(alloc: Global, line: &[u8]) -> Result<Option<String>, AllocError> {
    let trimmed = trim(alloc, line)?;
    let Ok(value) = Value::from_slice(alloc, trimmed.as_slice()) else {
        return Ok(None);
    };
    match object_at(alloc, "the line", &value)? {
        Ok(members) => members_place(alloc, members),
        Err(place) => Ok(Some(place)),
    }
}

/// The first place at which a line isn't as a configuration is to be, and what may be there: the
/// column where its JSON breaks off, or else a member, as
/// `agents.a1.cpus: 4.5 is no whole number from 1 to 1099511627776`. None where none is found.
pub(crate) fn place_in(alloc: Global, line: &[u8]) -> Result<Option<String>, AllocError> {
    let bytes = line.len();
    if bytes > LONGEST_LINE {
        let place = format!(in alloc; "it has {bytes} bytes, and may have {LONGEST_LINE}")?;
        return Ok(Some(place));
    }
    match Value::from_slice(alloc, line) {
        Ok(_) => value_place(alloc, line),
        Err(error) if error.is_memory() => Err(AllocError),
        Err(error) => Ok(Some(format!(in alloc; "{error}")?)),
    }
}
