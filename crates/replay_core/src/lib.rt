//! Replays: the steps of a cluster, read line by line, with the answer to each.
#![tactic(auto)]

mod fault;
mod replayed;
mod replayer;
mod replaying;

pub use fault::{LineStop, ReplayStop};
pub use replayed::{Replayed, StepText, end_table, opening_step, raised, take_step};
pub use replayer::Replayer;
pub use replaying::replay;
