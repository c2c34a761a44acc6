//! The connections of the scheduler's HTTP endpoint, each served by a worker of its own.

mod arrivals;
mod fault;
mod floor;
mod job;
mod serve;
mod shop;

pub use arrivals::Arrivals;
pub use fault::HttpFault;
pub use serve::serve_all;
