//! Refusals that no other line meets.

use call_json::CallFault;
use event_json::RecordFault;
use frame_record::FrameFault;
use names_core::NameFault;
use quantity::QuantityFault;
use std::alloc::{AllocError, Global};
use step_text::{AgentsFault, LineFault};
use stream_core::TaskLinkFault;

fn of_amounts(name: &str) -> QuantityFault {
    match name {
        "large" => QuantityFault::TooLarge,
        "uncovered" => QuantityFault::NotCovered,
        "names" => QuantityFault::TooManyNames,
        "name" => QuantityFault::BadName,
        _ => QuantityFault::OutOfMemory,
    }
}

/// The text of the refusal of this name: of amounts, or where memory was refused to what is named.
pub(crate) fn refusal(alloc: Global, name: &str) -> Result<String, AllocError> {
    match name {
        "memory agents" => format!(in alloc; "{}", AgentsFault::Memory),
        "memory call" => format!(in alloc; "{}", CallFault::OutOfMemory),
        "memory frame" => format!(in alloc; "{}", FrameFault::OutOfMemory),
        "memory id" => format!(in alloc; "{}", NameFault::OutOfMemory),
        "memory record" => format!(in alloc; "{}", RecordFault::OutOfMemory),
        "memory step" => format!(in alloc; "{}", LineFault::OutOfMemory),
        "memory update" => format!(in alloc; "{}", TaskLinkFault::OutOfMemory),
        _ => format!(in alloc; "{}", of_amounts(name)),
    }
}
