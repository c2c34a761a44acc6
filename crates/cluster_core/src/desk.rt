//! A cluster as a desk records it, and as an office runs it: what it delivers it delivers once,
//! its mails in their order.

mod offers;
mod recorded;

pub use recorded::RecordedCluster;
