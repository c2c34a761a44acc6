//! What the last answer of a pass leaves to be done.

use desk_core::{KeptEntry, Step};
use desk_lock::Pass;
use std::sync::ledger;

/// Whether the last answer of a pass stopped an agent.
pub(crate) fn has_stopped<L: ledger::Ledger>(pass: &Pass<KeptEntry, L>) -> bool {
    match pass.last() {
        Some(receipt) => matches!(receipt.entry.get().step, Step::StopAgent { .. }),
        None => false,
    }
}
