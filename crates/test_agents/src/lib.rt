//! Tests of activities, each a function that returns whether it passed.
#![tactic(auto)]

mod cabinets;
mod falls;
mod framework;
mod launches;
mod offices;
mod outages;
mod parts;
mod stops;
mod stores;
mod tests;

pub use launches::{
    a_stop_in_a_save, an_agent_down_at_a_commit, an_agent_down_at_a_prepare,
    what_is_unacknowledged_goes_first,
};
pub use outages::{an_outage_is_borne, an_outage_is_fatal};
pub use stops::{a_database_file_stops_in_a_launch, a_journal_stops_in_a_launch};
pub use tests::{
    a_larger_total, an_unknown_agent, another_record_alone, another_record_stands,
    the_new_record_stands, the_old_record_stands, two_rounds, two_saves_overlap,
};
