//! What the master knows in its run, the outputs of a step, and the steps that can't be refused
//! (Mesos scheduler HTTP API; Mesos paper, section 3.1).
#![tactic(auto)]

mod admit;
mod fault;
mod greet;
mod order;
mod outputs;
mod registry;
mod state;

pub use fault::MasterFault;
pub use registry::{Frameworks, SearchHints, is_due, place_in, puts_are_changes, refuses};
pub use state::{Outs, State};
