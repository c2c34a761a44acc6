//! The text of the replayer: the configuration and the steps that its lines are read as, and the
//! lines that it prints of entries and at its end, with the mails in them.
#![tactic(auto)]

mod agents;
mod entries;
mod lines;

pub use agents::{AgentsFault, AgentsFile, RefusedFile, agents_in, read_agents};
pub use entries::{agent_text, entries_text, entry_text, opening_text, refused_text};
pub use event_json::{to_agent_text, to_master_text};
pub use lines::{Config, LineFault, LineRefusal, read_config, read_step, step_of};
