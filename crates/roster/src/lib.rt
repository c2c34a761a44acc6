//! The master's sessions with the configured agents, and the commands that it issued in each.
#![tactic(auto)]

mod entry;
mod fault;
mod roster;

pub use entry::RosterEntry;
pub use fault::RosterFault;
pub use roster::Roster;
