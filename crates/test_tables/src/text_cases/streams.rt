//! The updates of a task, and the two ends of a link of commands.

use names_core::{LaunchKey, TaskState};
use std::alloc::{AllocError, Global};
use stream_core::{LinkIn, LinkOut, TaskLinkFault, Updates};

/// Whether the first of two launch keys is before the other.
pub(crate) fn earlier(alloc: Global, text: &str) -> Result<String, AllocError> {
    let (first, other) = text.split_once(' ').unwrap_or((text, ""));
    let is_earlier = LaunchKey::from_text(first).ok() < LaunchKey::from_text(other).ok();
    format!(in alloc; "{is_earlier}")
}

/// Pushes the state that a word names, or acknowledges the update whose number it is.
fn change(updates: &mut Updates, word: &str) -> Result<(), TaskLinkFault> {
    match TaskState::from_text(word) {
        Some(state) => updates.push(state),
        None => updates.acknowledge(word.parse().unwrap_or(u32::MAX)),
    }
}

/// What the last of the words is answered with, each a state or the number of an update that is
/// acknowledged; then the front, how many of how many states are acknowledged, and whether the task
/// is done.
pub(crate) fn updates(alloc: Global, text: &str) -> Result<String, AllocError> {
    let mut updates = Updates::new(alloc);
    let mut last = Ok(());
    for word in text.split(' ') {
        last = change(&mut updates, word);
    }
    let counts = (updates.acknowledged(), updates.states().len());
    format!(in alloc; "{:?}", (last, updates.front(), counts, updates.done()))
}

/// Issues the command that a word is, or applies as many as it says.
fn send(alloc: Global, sender: &mut LinkOut<char>, word: &str) -> Result<String, AllocError> {
    match word.parse() {
        Ok(count) => format!(in alloc; "{:?}", sender.applied(alloc, count)),
        Err(_) => format!(in alloc; "{:?}", sender.issue(word.chars().next().unwrap_or('-'))),
    }
}

/// What a sender answers to the last of the words, each a letter to issue or a count to apply; then
/// how many commands are known to be applied, how many wait, and whether the numbers are spent.
pub(crate) fn issued(alloc: Global, text: &str) -> Result<String, AllocError> {
    let mut sender = LinkOut::new(alloc);
    let mut last = Ok(String::new(alloc));
    for word in text.split(' ') {
        last = send(alloc, &mut sender, word);
    }
    let counts = (sender.known(), sender.waiting().len());
    format!(in alloc; "{:?}", (last, counts, sender.is_spent()))
}

/// What a receiver answers to the last of the commands with these numbers,
/// and how many it has taken then.
pub(crate) fn taken(alloc: Global, text: &str) -> Result<String, AllocError> {
    let mut receiver = LinkIn::new();
    let mut last = Ok(());
    for word in text.split(' ') {
        last = receiver.take(word.parse().unwrap_or(0));
    }
    format!(in alloc; "{:?}", (last, receiver.count()))
}
