use http_head::{SizeLines, Status, refusal_response, size_lines, subscribed_response};
use names_core::StreamId;
use std::alloc::{AllocError, Global};

const NO_SUCH_PATH: &[u8] =
    b"HTTP/1.1 404 Not Found\r\nContent-Type: text/plain\r\nContent-Length: 14\r\nConnection: close\r\n\r\nH2 NoSuchPath\n";

const NOT_POST: &[u8] =
    b"HTTP/1.1 405 Method Not Allowed\r\nAllow: POST\r\nContent-Type: text/plain\r\nContent-Length: 11\r\nConnection: close\r\n\r\nH3 NotPost\n";

const OPENED: &[u8] =
    b"HTTP/1.1 200 OK\r\nContent-Type: application/json\r\nTransfer-Encoding: chunked\r\nMesos-Stream-Id: S1-1\r\n\r\n";

fn is(text: Result<Vec<u8>, AllocError>, wanted: &[u8]) -> bool {
    match text {
        Ok(text) => text.as_slice() == wanted,
        Err(_) => false,
    }
}

fn is_refused(alloc: Global, status: Status, text: &str, wanted: &[u8]) -> bool {
    is(refusal_response(alloc, status, text), wanted)
}

/// The responses to requests that are refused.
pub fn refusals(alloc: Global) -> bool {
    is_refused(alloc, Status::NotFound, "H2 NoSuchPath", NO_SUCH_PATH)
        && is_refused(alloc, Status::MethodNotAllowed, "H3 NotPost", NOT_POST)
}

/// The head of a stream.
pub fn a_stream_opens(alloc: Global) -> bool {
    is(subscribed_response(alloc, StreamId::new(1, 1)), OPENED)
}

fn are(lines: Result<SizeLines, AllocError>, chunk: &str, record: &str) -> bool {
    match lines {
        Ok(lines) => lines.chunk.as_str() == chunk && lines.record.as_str() == record,
        Err(_) => false,
    }
}

/// The record's size line counts as data of the chunk.
pub fn sizes_of_a_chunk(alloc: Global) -> bool {
    let short = are(size_lines(alloc, 60), "3f\r\n", "60\n");
    short && are(size_lines(alloc, 100), "68\r\n", "100\n")
}
