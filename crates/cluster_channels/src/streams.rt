//! The streams of a cluster, with the events on them that nobody took yet.

mod kept;
mod laws;
mod places;
mod streams;

pub use kept::{KeptStream, Waiting};
pub use laws::{
    kept_streams_are_found, kept_streams_follow, no_more_is_taken, opened_streams_rise,
};
pub use streams::Streams;
