//! An agent's record and the number of the master's last run, written in a SQLite store.

pub mod fault;
mod runs;
mod save;
mod seen;

pub use runs::run_behind;
pub use save::{head_seen, save_record};
