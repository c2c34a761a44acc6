//! The connections of a TCP listener, each with a seat of an office over a cluster as its bench.
#![tactic(auto)]

mod arrivals;
mod bench;
mod ending;
mod fault;
mod inlet;
mod limits;
mod outlet;
mod places;
mod reading;
mod seating;
mod timing;
mod workers;

pub use arrivals::TcpArrivals;
pub use bench::SeatBench;
pub use ending::Ending;
pub use fault::bench_fault;
pub use inlet::TcpInlet;
pub use limits::ConnectionLimits;
pub use outlet::TcpOutlet;
pub use places::Places;
pub use reading::subscriptions_end_on_their_stream;
pub use seating::Seating;
pub use workers::{Arrivals, HttpFault, serve_all};
