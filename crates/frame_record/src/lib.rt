//! RecordIO: records on a byte stream, each preceded by its size in decimal digits and a line feed,
//! as the event streams and the calls of the Mesos scheduler HTTP API are framed.
#![tactic(auto)]

mod device;
mod fault;
mod first;
mod part;
mod reader;
mod writing;

pub use device::{
    LONGEST_LINE, LineAnswerer, LineReader, Stop, answer_lines, first_lines_stay, put, read_some,
};
pub use fault::FrameFault;
pub use first::LIMIT;
pub use part::Pulled;
pub use reader::{Fed, Reader, fault_stays, first_records_stay, what_waits_is_short};
pub use writing::{encode, one_reading, written_is_read};
