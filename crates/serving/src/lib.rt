//! A cluster that runs over the records of a folder: its agents, its master's time and its
//! connections, each in a thread of its own.
#![tactic(auto)]

mod fault;
mod memory;
mod serve;
mod staff;

pub use fault::ServingFault;
pub use memory::MemoryLimit;
pub use serve::{read_recorded, serve_cluster};
pub use staff::Pace;
