//! What stands between a master and those around it: which numbers of all that was sent can be
//! delivered, and the events on streams that nobody took yet.
#![tactic(auto)]

mod posts;
mod streams;

pub use posts::{Direction, EverSent, Post, Queues, queues_hand_out_once};
pub use streams::{
    KeptStream, Streams, Waiting, kept_streams_are_found, kept_streams_follow, no_more_is_taken,
    opened_streams_rise,
};
