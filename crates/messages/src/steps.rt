//! The steps of a cluster, how each ends, and why one isn't taken: plain data.

mod fault;
mod step;
mod verdict;

pub use fault::ClusterFault;
pub use step::{Keep, Step, StepCause};
pub use verdict::{Sent, Verdict};
