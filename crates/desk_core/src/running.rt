//! What the callers of a cluster that runs see of it: the entries of its steps, what comes with
//! them, and what is looked at in it.

mod awaited;
mod given;
mod kept_entry;
mod open_offer;
mod running;

pub use agent_core::Record;
pub use awaited::{
    Awaited, each_event_wakes_its_stream, each_mail_wakes_its_agent, freed_at,
    no_output_wakes_nobody,
};
pub use given::Given;
pub use kept_entry::KeptEntry;
pub use messages::{ClusterFault, Entry, Keep, Step, StepCause};
pub use open_offer::OpenOffer;
pub use running::Running;
