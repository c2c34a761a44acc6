//! What the code of a cluster may rest on at each step: what its numbers mean, and what each part
//! owes to the others.
#![tactic(auto)]

mod item;
mod laws;
mod parts;
mod runs;
mod ties;

pub use item::Item;
pub use laws::{
    agents_keep_their_names, items_are_posts, mails_of_agents_fit, mails_to_agents_come_in_order,
    opening_items_stand, sent_items_stand,
};
pub use parts::{
    agents_leave_the_others, commits_send_drafts, fallen_masters_do_not_serve,
    masters_begin_with_greetings, masters_leave_agents, steps_move_agents,
};
pub use runs::{
    masters_open_next_streams, masters_stay_in_their_run, states_count_entries, streams_rise,
    weights_stay,
};
pub use ties::{fresh_masters_open, named_agents_are_found, refusals_stand_alone};
