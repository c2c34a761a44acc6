//! The parts of a request that are judged whole: its head, the lines of its chunks,
//! and its trailers (RFC 9112).
#![tactic(auto)]

mod cut;
mod fault;
mod fields;
mod judge;
mod laws;
mod line;
mod plan;
mod request;
mod text;
mod words;

pub use cut::{MAX_PART, Place, Scan};
pub use fault::RequestFault;
pub use judge::judge_head;
pub use laws::{blanks_are_found, one_part, parts_are_found};
pub use line::{are_trailers, judge_line};
pub use plan::{Body, MAX_BODY, Plan};
pub use request::{ConnectionFault, Head, Inlet, Received, Section, Unread, next_head, read_body};
pub use text::{
    SizeLines, Status, accepted_response, continue_response, last_chunk, one_chunk,
    refusal_response, size_lines, subscribed_response,
};
