//! What the master does beside answering calls: at an agent's mail, at a tick, when it loses an
//! agent, and when a framework's stream hangs up (Mesos paper, sections 3.1 and 3.5).

mod laws;
mod on_hang_up;
mod on_loss;
mod on_mail;
mod on_tick;
mod opening;
mod reported;
mod sending;

pub use laws::an_end_that_is_received_frees;
pub use on_hang_up::hang_up;
pub use on_loss::lose_agent;
pub use on_mail::mail;
pub use on_tick::tick;
