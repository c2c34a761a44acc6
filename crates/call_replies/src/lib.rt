//! Replies to calls: frames of calls in, frames of events out, by a master without agents.
#![tactic(auto)]

mod answering;
mod fault;
mod reply;

pub use answering::calls;
pub use fault::Stop;
