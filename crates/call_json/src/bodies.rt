//! The nine calls of the Mesos scheduler HTTP API, each read from the object that it is in JSON.
//! Each is refused by its first fault, in the order of its members.

mod framework_calls;
mod launched;
mod offer_calls;
mod offers;
mod operations;
mod reconcile_call;
mod resources;
mod subscribe_call;
mod task_calls;

pub use framework_calls::{revive, suppress, teardown};
pub use offer_calls::{accept, decline};
pub use reconcile_call::reconcile;
pub use subscribe_call::subscribe;
pub use task_calls::{acknowledge, kill};
