//! The thread of an agent, the ticker, which sends the master its Ticks and rounds of offers, and
//! the decliner of offers that are left unanswered.
#![tactic(auto)]

mod clock;
mod declines;
mod executor;
mod fault;
mod keeping;
mod opening;
mod receipts;
mod records;
mod ticks;
mod turns;
mod worker;

pub use agent_core::{Cabinet, Record};
pub use clock::{Seconds, Stopwatch};
pub use declines::decliner;
pub use fault::{ActivityFault, CabinetFailures};
pub use ticks::ticker;
pub use turns::activity;
