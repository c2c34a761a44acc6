//! Tests of what comes in, each a function that says whether it passed: of requests and
//! connections, to a bench and to one master, of `calls` where a read or a write fails or a limit
//! is met, of lines that come in pieces, and of the program's words.
#![tactic(auto)]

mod desk;
mod limits;
mod of_call_replies;
mod of_command_line;
mod of_device_io_reader;
mod of_http_door;
mod of_http_head;
mod of_http_text;
mod of_one_master;

pub use limits::{
    a_body_that_is_too_long_is_not_read, an_end_in_each_place, at_most_64_fields,
    at_most_16384_bytes_of_a_head,
};
pub use of_call_replies::{
    frameworks_are_limited, where_a_read_fails_a_beginning_was_written,
    where_a_write_fails_a_beginning_was_written,
};
pub use of_command_line::{numbers_have_their_ranges, the_command_line_is_read, words_are_refused};
pub use of_device_io_reader::{a_line_may_come_in_pieces, a_long_line_takes_no_more_memory};
pub use of_http_door::{a_link_may_fail_anywhere, a_stream, bodies, heads};
pub use of_http_head::{
    chunk_lines_and_trailers, heads_are_refused_in_order, length_fields_are_judged, parts_are_cut,
    the_first_of_other_fields_counts,
};
pub use of_http_text::{a_stream_opens, refusals, sizes_of_a_chunk};
pub use of_one_master::{a_call_without_its_stream, a_framework_fails_over};
