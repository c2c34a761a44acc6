//! The tasks of an agent's record: what becomes of all of them at a change of one,
//! and what of them is sent.

mod edits;
mod fronts;
mod keys;
mod room;

pub use edits::{
    acknowledged_all, front_sent_after, has_ended_task, has_task, is_of_key, lacks_place,
    stated_all, without_framework,
};
pub use fronts::{all_reported, push_fronts, push_fronts_at};
pub use keys::count_before;
pub use room::room_beside;
