//! The events of the Mesos scheduler HTTP API, written as JSON.
#![tactic(auto)]

mod mail;
mod object;
mod offer;
mod record;
mod status;
mod write;

pub use mail::{to_agent_text, to_master_text};
pub use record::{
    RecordFault, amounts_value, framework_value, key_value, offers_value, one_record, put_job,
    record_of, record_text, task_of_text, task_text, total_of_text, total_text,
};
pub use write::write_event;
