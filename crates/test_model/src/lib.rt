//! Runs of the model that the checker computes, outputs and the safety law included.
#![tactic(auto)]

mod safe;
mod samples;

pub use safe::{
    a_part_is_offered_once, accepted_offers_are_gone, acknowledgements_outlive_tasks,
    acks_take_no_more_than_named, books_have_what_is_reported, closed_sessions_stay_closed,
    commands_are_counted, kills_free_nothing, old_ends_free_no_new_task, only_owners_acknowledge,
    repeated_reports_replace_nothing, teardowns_free_nothing, totals_do_not_fall,
    updates_are_sent_in_turn, worlds_are_of_histories,
};
pub use samples::{
    accepted_twice, acknowledged, applied_launch, commands_of_an_agent, declined, declined_offer,
    dominant_shares, filtered_rest, first_offer, heartbeats, larger_total, last_run, odd_verdicts,
    old_launch, over_record, reconciled, refused_steps, report_again, reports_out_of_turn, revived,
    same_name, sessions_of_an_agent, stop_with_draft, stop_without_draft, taken_events, torn_down,
    total_lost, total_saved, totals_of_an_agent, two_agents, two_launches,
};
