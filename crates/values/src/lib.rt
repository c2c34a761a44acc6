//! Values that the crates above share: plain data, lists, values that are stored once and those with
//! several owners. Contracts see the value alone.
#![tactic(auto)]

mod listed;
mod permanent;
mod plain;
mod shared;

pub use listed::Listed;
pub use permanent::{Permanent, Place};
pub use plain::{Plain, are_same, copies_of, push_copies};
pub use shared::Shared;
