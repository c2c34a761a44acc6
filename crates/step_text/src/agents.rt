//! The file of the agents: one line, which says which agents a cluster has, what each owns,
//! and how much roles count.

mod agents;
mod fault;
mod file;
mod notes;
mod places;

pub use crate::Config;
pub use agents::agents_in;
pub use fault::AgentsFault;
pub use file::{AgentsFile, RefusedFile, read_agents};
