//! Over which records configured agents may be opened: those of agents that never ran,
//! and any that are a good opening, in any order.

mod apart;
mod fresh;
mod good_openings;
mod ordering;
mod recorded;

pub use fresh::{fresh_agents_open, fresh_records};
pub use good_openings::good_opening;
pub use ordering::put_in_order;
pub use recorded::records_are_recorded;
