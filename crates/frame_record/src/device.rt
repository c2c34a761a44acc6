//! Reading and writing that interruptions don't disturb, the lines of a text that comes in pieces,
//! and a text that is answered line by line, as it comes.

mod answerer;
mod answers;
mod output;
mod reader;

pub use answerer::LineAnswerer;
pub use answers::{Stop, answer_lines};
pub use output::{put, read_some};
pub use reader::{LONGEST_LINE, LineReader, first_lines_stay};
