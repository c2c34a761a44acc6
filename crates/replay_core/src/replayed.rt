//! A cluster that is replayed: the texts of its opening and of each step,
//! and the table at the end of a history.

mod live;
mod numbers;
mod replayed;
mod steps;
mod table;

pub use numbers::raised;
pub use replayed::Replayed;
pub use steps::{StepText, opening_step, take_step};
pub use table::end_table;
