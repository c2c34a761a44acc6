//! The master: its answers to calls, and what it does at agents' mails, rounds of offers, ticks,
//! lost agents and hang-ups (Mesos scheduler HTTP API, Calls; Mesos paper, section 3.1).
#![tactic(auto)]

mod answer;
mod mailing;
mod master;
mod offered;
mod settle;

pub use mailing::{an_end_that_is_received_frees, hang_up, lose_agent, mail, tick};
pub use master::{Master, ReceivedMail};
pub use master_agents::{ConfigFault, ConfiguredAgents};
pub use master_state::{MasterFault, Outs};
