//! An agent that loses no change that it reported:
//! each change is first a draft to be saved, and then a commit.
#![tactic(auto)]

mod agent;
mod cabinet;
mod causes;
mod changes;
mod commands;
mod differences;
mod draft;
mod fault;
mod mails_out;
mod record;
mod room;
mod spared;
mod state;
mod tasks;

pub use agent::Agent;
pub use cabinet::Cabinet;
pub use draft::Draft;
pub use fault::AgentFault;
pub use messages::RecordParts;
pub use record::{Record, keys_rise};
pub use tasks::{
    acknowledged_all, all_reported, count_before, front_sent_after, has_ended_task, has_task,
    is_of_key, lacks_place, push_fronts, push_fronts_at, room_beside, stated_all,
    without_framework,
};
