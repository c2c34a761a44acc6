//! Amounts of named resources: what an agent owns, an offer contains and a task uses.
#![tactic(auto)]

mod fault;
mod laws;
mod name;
mod resources;
mod rows;

pub use fault::QuantityFault;
pub use laws::{
    amounts_add_up, amounts_determine_rows, covers_is_at_least, rests_are_less, rests_are_rows,
    rests_join, sums_add_up,
};
pub use name::ResourceName;
pub use resources::Resources;
pub use rows::Row;
