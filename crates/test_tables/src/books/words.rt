//! The arguments of a call, read from left to right.

use names_core::{AgentName, TaskName};
use quantity::Resources;
use std::alloc::Global;

/// The first word, and the rest of the text.
pub fn first(text: &str) -> (&str, &str) {
    match text.split_once(' ') {
        Some((word, rest)) => (word, rest),
        None => (text, ""),
    }
}

pub fn number(text: &str) -> Option<u32> {
    text.parse::<u32>().ok()
}

pub fn agent(alloc: Global, text: &str) -> Option<AgentName> {
    AgentName::from_text(alloc, text).ok()
}

pub fn task(alloc: Global, text: &str) -> Option<TaskName> {
    TaskName::from_text(alloc, text).ok()
}

/// Adds an amount, which is written `cpus:4`.
fn add_amount(resources: &mut Resources, alloc: Global, word: &str) -> Option<()> {
    let (name, amount) = word.split_once(':')?;
    let amount = amount.parse::<u64>().ok()?;
    resources.add(alloc, name, amount).ok()
}

fn add_amounts(resources: &mut Resources, alloc: Global, text: &str) -> Option<()> {
    for word in text.split(' ') {
        if !word.is_empty() {
            add_amount(resources, alloc, word)?;
        }
    }
    Some(())
}

/// All words of the text, each an amount.
pub fn amounts(alloc: Global, text: &str) -> Option<Resources> {
    let mut resources = Resources::new(alloc);
    add_amounts(&mut resources, alloc, text)?;
    Some(resources)
}
