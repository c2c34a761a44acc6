//! Mails as texts.

mod to_agent;
mod to_master;

pub use to_agent::to_agent_text;
pub use to_master::to_master_text;
