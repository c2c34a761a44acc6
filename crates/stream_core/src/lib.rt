//! Numbered commands from a master to an agent, and the status updates of a task.
#![tactic(auto)]

mod fault;
mod link;
mod updates;

pub use fault::TaskLinkFault;
pub use link::{LinkIn, LinkOut};
pub use updates::Updates;
