//! The entries of a cluster's history: plain data.

mod entry;

pub use entry::{Entry, Outputs};
