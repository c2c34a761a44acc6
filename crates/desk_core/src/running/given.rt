//! What is returned of a step with its entry.

use agent_core::Record;

/// What comes with the entry of a step that was taken.
#[derive(Drop)]
pub struct Given {
    /// The record of the draft that a Prepare opened;
    /// it is to be saved before the draft is committed.
    pub durable: Option<Record>,
    /// How many calls and mails were sent before the step:
    /// those that it sent have the numbers after this one, in order.
    pub sent_before: usize,
}
