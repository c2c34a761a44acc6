//! What the master knows of frameworks in its run: their streams and roles, what they suppressed,
//! and which resources they refused for some seconds (Mesos scheduler HTTP API: SUBSCRIBE,
//! SUPPRESS, REVIVE, DECLINE).

mod edit;
mod filters;
mod last_round;
mod laws;
mod look;
mod starts;
mod streams;
mod table;

pub use edit::is_due;
pub use filters::refuses;
pub use laws::puts_are_changes;
pub use look::place_in;
pub use starts::SearchHints;
pub use table::Frameworks;
