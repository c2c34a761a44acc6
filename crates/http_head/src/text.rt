//! What the scheduler's HTTP endpoint writes: responses,
//! and the chunks of an event stream (RFC 9112).

mod chunk;
mod response;
mod status;

pub use chunk::{SizeLines, last_chunk, one_chunk, size_lines};
pub use response::{accepted_response, continue_response, refusal_response, subscribed_response};
pub use status::Status;
