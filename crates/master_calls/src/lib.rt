//! The master's answers to calls of frameworks (Mesos scheduler HTTP API, Calls).
#![tactic(auto)]

mod accepting;
mod on_kill;
mod on_reconcile;
mod on_revive;
mod on_subscribe;
mod on_teardown;

pub use accepting::{accept, decline};
pub use on_kill::{acknowledge, kill};
pub use on_reconcile::reconcile;
pub use on_revive::{revive, suppress};
pub use on_subscribe::subscribe;
pub use on_teardown::teardown;
