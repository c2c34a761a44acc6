//! Texts of calls, of records, of a replay and of the file of the agents.

use call_json::{read_call, trim};
use event_json::{record_of, record_text};
use master_agents::{ConfiguredAgent, ConfiguredAgents};
use messages::Call;
use names_core::RoleName;
use std::alloc::{AllocError, Global};
use std::str;
use step_text::{agents_in, read_config, read_step};

fn trimmed(alloc: Global, text: &str) -> Result<String, AllocError> {
    let trimmed = trim(alloc, text.as_bytes())?;
    match str::from_utf8(&trimmed) {
        Ok(text) => text.to_string(alloc),
        Err(_) => "no text".to_string(alloc),
    }
}

/// The call with its fields.
fn call(alloc: Global, text: &str) -> Result<String, AllocError> {
    match read_call(alloc, text.as_bytes()) {
        Ok(call) => format!(in alloc; "{call:?}"),
        Err(fault) => format!(in alloc; "{fault}"),
    }
}

/// How many offers and how many tasks the call lists.
fn counts(call: &Call) -> (usize, usize) {
    match call {
        Call::Accept { offers, tasks, .. } => (offers.len(), tasks.len()),
        Call::Decline { offers, .. } => (offers.len(), 0),
        Call::Reconcile { tasks, .. } => (0, tasks.len()),
        _ => (0, 0),
    }
}

fn lists(alloc: Global, text: &str) -> Result<String, AllocError> {
    match read_call(alloc, text.as_bytes()) {
        Ok(call) => format!(in alloc; "{:?}", counts(&call)),
        Err(fault) => format!(in alloc; "{fault}"),
    }
}

/// The record with its fields.
fn record(alloc: Global, text: &str) -> Result<String, AllocError> {
    match record_of(alloc, text) {
        Ok(record) => format!(in alloc; "{record:?}"),
        Err(fault) => format!(in alloc; "{fault}"),
    }
}

/// The written form of the record that a text is.
fn written(alloc: Global, text: &str) -> Result<String, AllocError> {
    match record_of(alloc, text) {
        Ok(record) => record_text(alloc, &record),
        Err(fault) => format!(in alloc; "{fault}"),
    }
}

/// The step with its fields.
fn step(alloc: Global, text: &str) -> Result<String, AllocError> {
    match read_step(alloc, text.as_bytes()) {
        Ok(step) => format!(in alloc; "{step:?}"),
        Err(fault) => format!(in alloc; "{fault}"),
    }
}

fn push_agent(told: &mut String, agent: &ConfiguredAgent) -> Result<(), AllocError> {
    let name = agent.name.as_text();
    let total = &agent.total;
    write!(told, "{name} {total:?};")
}

/// Each agent with its amounts.
fn configured(alloc: Global, config: &ConfiguredAgents) -> Result<String, AllocError> {
    let mut told = String::new(alloc);
    for agent in config.agents() {
        push_agent(&mut told, agent)?;
    }
    Ok(told)
}

fn config(alloc: Global, text: &str) -> Result<String, AllocError> {
    match read_config(alloc, text.as_bytes()) {
        Ok(config) => configured(alloc, &config.agents),
        Err(fault) => format!(in alloc; "{fault}"),
    }
}

/// The weight of a role, whose name is before the first blank.
fn weight(alloc: Global, text: &str) -> Result<String, AllocError> {
    let Some((name, line)) = text.split_once(' ') else {
        return "no blank".to_string(alloc);
    };
    let role = match RoleName::from_text(alloc, name) {
        Ok(role) => role,
        Err(fault) => return format!(in alloc; "{fault}"),
    };
    match read_config(alloc, line.as_bytes()) {
        Ok(config) => format!(in alloc; "{}", config.weights.of(&role)),
        Err(fault) => format!(in alloc; "{fault}"),
    }
}

fn agents(alloc: Global, text: &str) -> Result<String, AllocError> {
    match agents_in(alloc, text.as_bytes()) {
        Ok(config) => configured(alloc, &config.agents),
        Err(fault) => format!(in alloc; "{fault}"),
    }
}

pub(crate) fn of_texts(alloc: Global, kind: &str, text: &str) -> Result<String, AllocError> {
    match kind {
        "trim" => trimmed(alloc, text),
        "call" => call(alloc, text),
        "lists" => lists(alloc, text),
        "record" => record(alloc, text),
        "written" => written(alloc, text),
        "step" => step(alloc, text),
        "config" => config(alloc, text),
        "weight" => weight(alloc, text),
        "agents" => agents(alloc, text),
        _ => "no kind".to_string(alloc),
    }
}
