//! An agent's record as a text, both ways.

mod fault;
mod laws;
mod lists;
mod members;
mod parts;
mod read;
mod task;
mod write;

pub use fault::RecordFault;
pub use laws::one_record;
pub use parts::{task_of_text, task_text, total_of_text, total_text};
pub use read::record_of;
pub use write::{amounts_value, framework_value, key_value, offers_value, put_job, record_text};
