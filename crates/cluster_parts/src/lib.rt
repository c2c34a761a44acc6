//! The parts of a cluster: its agents, and its master with all that was sent, the streams and the
//! post; and each step that changes them, a method of `Parts`. At each state that the parts
//! represent a step is the model's, or it is refused and they don't change.
#![tactic(auto)]

mod commits;
mod delivering;
mod doings;
mod master_laws;
mod masters;
mod opening;
mod parts;
mod places;
mod prepares;
mod restarting;
mod sends;
mod serving;
mod stops;

pub use cluster_agents::{ClusterAgent, Items, StepOutcome, place_of};
pub use masters::MasterAndChannels;
pub use opening::{Opened, open_parts};
pub use parts::ClusterState;
