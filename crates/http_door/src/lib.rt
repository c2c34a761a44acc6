//! The scheduler's HTTP endpoint, one connection at a time: calls are read from any inlet and
//! passed to any bench, and its answers are written to any outlet (RFC 9112; Mesos scheduler HTTP
//! API).
#![tactic(auto)]

mod bench;
mod conn;
mod exchange;
mod gate;
mod memory;
mod outlet;
mod refusal;
mod send;
mod stream;

pub use bench::{Answer, Bench};
pub use conn::serve_conn;
pub use exchange::exchange_is_a_function;
pub use gate::{Gate, NoGate};
pub use http_head::{ConnectionFault, Inlet, Section};
pub use memory::{Sink, Source};
pub use outlet::Outlet;
pub use refusal::{BenchFault, Refusal};
