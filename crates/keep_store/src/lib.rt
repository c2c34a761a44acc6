//! An agent's record and the number of the master's last run, kept in a SQLite store.
#![tactic(auto)]

mod adding;
mod check;
mod files;
mod keeper;
mod open;
mod reading;
mod record;
mod saves;
mod seen;

pub use event_json::{record_of, record_text};
pub use keep_tables::KeepFault;
pub use keeper::Keeper;
pub use saves::{fault, head_seen, run_behind, save_record};
