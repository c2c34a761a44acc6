//! The master's answers to ACCEPT and DECLINE (Mesos scheduler HTTP API, Calls;
//! Mesos paper, section 3.1).

mod held;
mod launch;
mod on_accept;
mod on_decline;
mod take;

pub use on_accept::accept;
pub use on_decline::decline;
