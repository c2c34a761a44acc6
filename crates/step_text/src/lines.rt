//! The lines of the replayer, each a JSON object (RFC 8259): the first says which agents there are,
//! and each other one is a step, with the member `step` and those that its step asks, and no
//! further ones.

mod agents;
mod causes;
mod config;
mod fault;
mod members;
mod read;
mod send;
mod totals;

pub use config::read_config;
pub use fault::{LineFault, LineRefusal};
pub use master_agents::Config;
pub use read::{read_step, step_of};
