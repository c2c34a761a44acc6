//! One connection to a master, whose input ends early or goes over a limit.

use crate::desk::{Desk, Reply, answer};
use std::alloc::Global;

const BODY: &str =
    "{\"type\":\"SUBSCRIBE\",\"subscribe\":{\"framework_info\":{\"user\":\"u\",\"name\":\"n\"}}}";

const HEAD: &str =
    "POST /api/v1/scheduler HTTP/1.1\r\nContent-Type: application/json\r\nContent-Length: 75\r\n\r\n";

/// The head, and the body after it.
const SUBSCRIBE: &str =
    "POST /api/v1/scheduler HTTP/1.1\r\nContent-Type: application/json\r\nContent-Length: 75\r\n\r\n{\"type\":\"SUBSCRIBE\",\"subscribe\":{\"framework_info\":{\"user\":\"u\",\"name\":\"n\"}}}";

const LONG_HEAD: &str =
    "POST /api/v1/scheduler HTTP/1.1\r\nContent-Type: application/json\r\nContent-Length: 1048577\r\n\r\n";

/// The same body, of which the head says that it is too long.
const LONG: &str =
    "POST /api/v1/scheduler HTTP/1.1\r\nContent-Type: application/json\r\nContent-Length: 1048577\r\n\r\n{\"type\":\"SUBSCRIBE\",\"subscribe\":{\"framework_info\":{\"user\":\"u\",\"name\":\"n\"}}}";

const BAD_HEAD: &str =
    "HTTP/1.1 400 Bad Request\r\nContent-Type: text/plain\r\nContent-Length: 11\r\nConnection: close\r\n\r\nH1 BadHead\n";

const BAD_BODY: &str =
    "HTTP/1.1 400 Bad Request\r\nContent-Type: text/plain\r\nContent-Length: 11\r\nConnection: close\r\n\r\nH6 BadBody\n";

const TOO_LONG: &str =
    "HTTP/1.1 413 Content Too Large\r\nContent-Type: text/plain\r\nContent-Length: 11\r\nConnection: close\r\n\r\nH5 TooLong\n";

/// What comes of a connection to a new master, whose client sends this, so many bytes at a time.
fn reply_to(alloc: Global, request: &str, most: usize) -> Option<Reply> {
    let bytes = Vec::from_slice(alloc, request.as_bytes()).ok()?;
    match Desk::new(alloc) {
        Some(mut desk) => Some(answer(alloc, &mut desk, bytes, most, 1 << 30)),
        None => None,
    }
}

fn is_answered(alloc: Global, request: &str, want: &str) -> bool {
    match reply_to(alloc, request, 1 << 20) {
        Some(reply) => reply.got.as_slice() == want.as_bytes(),
        None => false,
    }
}

fn is_opened(alloc: Global, request: &str) -> bool {
    match reply_to(alloc, request, 1 << 20) {
        Some(reply) => reply.got.starts_with(b"HTTP/1.1 200 OK\r\n"),
        None => false,
    }
}

/// Whether an input that ends after so many bytes is answered so:
/// first the head is refused, then the body.
fn ends_at(alloc: Global, length: usize) -> bool {
    let want = if length < HEAD.len() {
        BAD_HEAD
    } else {
        BAD_BODY
    };
    match SUBSCRIBE.get(..length) {
        Some(front) => is_answered(alloc, front, want),
        None => false,
    }
}

/// Whether each end within the request is answered so.
fn ends_everywhere(alloc: Global) -> bool {
    for length in 1..SUBSCRIBE.len() {
        if !ends_at(alloc, length) {
            return false;
        }
    }
    true
}

/// An input may end in each place. Nothing is answered where there is none.
pub fn an_end_in_each_place(alloc: Global) -> bool {
    is_answered(alloc, "", "") && ends_everywhere(alloc) && is_opened(alloc, SUBSCRIBE)
}

/// A SUBSCRIBE with these fields more.
fn with_fields(alloc: Global, fields: &str) -> Option<String> {
    format!(in alloc;
        "POST /api/v1/scheduler HTTP/1.1\r\nContent-Type: application/json\r\nContent-Length: 75\r\n{fields}\r\n{BODY}"
    ).ok()
}

fn push_often(text: &mut String, part: &str, count: usize) -> Option<()> {
    for _ in 0..count {
        text.push_str(part).ok()?;
    }
    Some(())
}

/// So many fields.
fn fields_of(alloc: Global, count: usize) -> Option<String> {
    let mut fields = String::new(alloc);
    push_often(&mut fields, "a: b\r\n", count)?;
    Some(fields)
}

fn push_field(field: &mut String, count: usize) -> Option<()> {
    field.push_str("a: ").ok()?;
    push_often(field, "b", count)?;
    field.push_str("\r\n").ok()
}

/// One field, whose value has so many bytes.
fn field_of(alloc: Global, count: usize) -> Option<String> {
    let mut field = String::new(alloc);
    push_field(&mut field, count)?;
    Some(field)
}

/// Whether a SUBSCRIBE with these fields more is taken; none where memory was refused.
fn is_taken(alloc: Global, fields: Option<String>) -> Option<bool> {
    let fields = fields?;
    let request = with_fields(alloc, fields.as_str())?;
    let refused = is_answered(alloc, request.as_str(), BAD_HEAD);
    let opened = is_opened(alloc, request.as_str());
    if refused == opened {
        None
    } else {
        Some(opened)
    }
}

/// The head has two fields of its own.
pub fn at_most_64_fields(alloc: Global) -> bool {
    let most = is_taken(alloc, fields_of(alloc, 62));
    most == Some(true) && is_taken(alloc, fields_of(alloc, 63)) == Some(false)
}

/// A head has at most 16,384 bytes.
pub fn at_most_16384_bytes_of_a_head(alloc: Global) -> bool {
    let least = HEAD.len() + 5;
    let most = is_taken(alloc, field_of(alloc, 16_384 - least));
    most == Some(true) && is_taken(alloc, field_of(alloc, 16_385 - least)) == Some(false)
}

/// A body that is too long isn't read: only what came with the head is.
pub fn a_body_that_is_too_long_is_not_read(alloc: Global) -> bool {
    match reply_to(alloc, LONG, LONG_HEAD.len()) {
        Some(reply) => {
            reply.got.as_slice() == TOO_LONG.as_bytes() && reply.left.as_slice() == BODY.as_bytes()
        }
        None => false,
    }
}
