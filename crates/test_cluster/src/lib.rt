//! Tests of clusters, each a function that returns whether it passed.
#![tactic(auto)]

mod of_cluster_core_opening;
mod of_cluster_core_restarts;
mod of_drf_pick;
mod of_event_streams;
mod of_post_rules;
mod of_recorded_clusters;
mod plain_shares;

pub use of_cluster_core_opening::records_are_a_good_opening;
pub use of_cluster_core_restarts::{
    a_record_is_opened_over, a_refused_step_is_passed_over, an_agent_that_fell_is_down,
    behind_the_last_run_no_master_serves,
};
pub use of_drf_pick::generated_shares_are_as_plain_lists;
pub use of_event_streams::events_wait_on_their_streams_in_order;
pub use of_post_rules::{
    a_call_is_handed_out_once, mails_are_handed_out_in_the_order_of_their_queue,
    what_was_put_can_be_handed_out,
};
pub use of_recorded_clusters::{two_seats_have_their_entries, two_threads_of_100_calls};
