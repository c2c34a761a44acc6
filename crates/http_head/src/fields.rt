//! The fields of a head.

ghost use Rattle.std.specs.Prelude.{◌≡◌, ◌+◌, ◌<◌, length, drop, All, IfOk, [], ◌∷◌, MatchOption, Ok, Err, codes, slice_index_or};
ghost use Rattle.httparse.specs.Spans.{header_bytes, IsHeaderWithin};
ghost use Rattle.http_head.specs.Spans.{header_none};
ghost use Rattle.http_head.specs.Heads.{values_in, sized_by, coded_by, body_by, has_json, expects, closes, stream_in, IsWithinLimit};

use crate::fault::RequestFault;
use crate::plan::Body;
use crate::words;
use http1::text::eq_ignore_case;
use httparse::spans::HeaderSpan;
use names_core::StreamId;
use std::str;

/// The first of the headers that has this name, without regard to case.
fn first_named(buf: &[u8], headers: &[HeaderSpan], name: &[u8]) -> Option<usize>
    requires { All (IsHeaderWithin (length buf.now)) headers.now }
    ensures { MatchOption result (values_in buf.now headers.now name.now ≡ [])
        (λ i. (i < length headers.now) × (values_in buf.now headers.now name.now
        ≡ (header_bytes buf.now (slice_index_or headers.now i header_none)).1
        ∷ values_in buf.now (drop (i + 1) headers.now) name.now)) }
{
    for (i, header) in headers.iter().enumerate() {
        if eq_ignore_case(header.name.of(buf), name) {
            return Some(i);
        }
    }
    None
}

/// The body of a decimal length, within the limit.
fn sized_by(text: &[u8]) -> Result<Body, RequestFault>
    ensures value { result ≡ sized_by text.now }
    ensures limit { IfOk result IsWithinLimit }
{
    if text.is_empty() {
        return Err(RequestFault::BadBody);
    }
    let mut n: u64 = 0;
    for byte in text {
        if !byte.is_ascii_digit() {
            return Err(RequestFault::BadBody);
        }
        n = (n * 10 + u64::from(*byte - b'0')).min(1_048_577);
    }
    if n > 1_048_576 {
        return Err(RequestFault::TooLong);
    }
    Ok(Body::Sized(n as usize))
}

fn coded_by(text: &[u8]) -> Result<Body, RequestFault>
    ensures { result ≡ coded_by text.now }
{
    if eq_ignore_case(text, b"chunked") {
        Ok(Body::Chunked)
    } else {
        Err(RequestFault::BadBody)
    }
}

/// The body by its length fields: one at most (RFC 9112, section 6.3).
pub fn body_by(buf: &[u8], headers: &[HeaderSpan]) -> Result<Body, RequestFault>
    requires { All (IsHeaderWithin (length buf.now)) headers.now }
    ensures value { result ≡ body_by (values_in buf.now headers.now (codes "content-length"))
        (values_in buf.now headers.now (codes "transfer-encoding")) }
    ensures limit { IfOk result IsWithinLimit }
{
    let length = first_named(buf, headers, b"content-length");
    let coding = first_named(buf, headers, b"transfer-encoding");
    match (length, coding) {
        (None, None) => Ok(Body::Sized(0)),
        (Some(i), None) => {
            if first_named(buf, &headers[i + 1..], b"content-length").is_some() {
                return Err(RequestFault::BadBody);
            }
            sized_by(headers[i].value.of(buf))
        }
        (None, Some(i)) => {
            if first_named(buf, &headers[i + 1..], b"transfer-encoding").is_some() {
                return Err(RequestFault::BadBody);
            }
            coded_by(headers[i].value.of(buf))
        }
        (Some(_), Some(_)) => Err(RequestFault::BadBody),
    }
}

/// Whether the first media type is that of JSON.
pub fn has_json(buf: &[u8], headers: &[HeaderSpan]) -> bool
    requires { All (IsHeaderWithin (length buf.now)) headers.now }
    ensures { result ≡ has_json (values_in buf.now headers.now (codes "content-type")) }
{
    match first_named(buf, headers, b"content-type") {
        Some(i) => words::is_json(headers[i].value.of(buf)),
        None => false,
    }
}

/// Whether the first expectation is `100-continue`.
pub fn expects(buf: &[u8], headers: &[HeaderSpan]) -> bool
    requires { All (IsHeaderWithin (length buf.now)) headers.now }
    ensures { result ≡ expects (values_in buf.now headers.now (codes "expect")) }
{
    match first_named(buf, headers, b"expect") {
        Some(i) => eq_ignore_case(headers[i].value.of(buf), b"100-continue"),
        None => false,
    }
}

/// Whether the first list of connection options has `close`.
pub fn closes(buf: &[u8], headers: &[HeaderSpan]) -> bool
    requires { All (IsHeaderWithin (length buf.now)) headers.now }
    ensures { result ≡ closes (values_in buf.now headers.now (codes "connection")) }
{
    match first_named(buf, headers, b"connection") {
        Some(i) => words::has_close(headers[i].value.of(buf)),
        None => false,
    }
}

fn stream_by(text: &[u8]) -> Option<StreamId>
    ensures { result ≡ stream_in (text.now ∷ []) }
{
    let Ok(text) = str::from_utf8(text) else {
        return None;
    };
    match StreamId::from_text(text) {
        Ok(stream) => Some(stream),
        Err(_) => None,
    }
}

/// The stream that the first stream id header names. One that doesn't read is as none.
pub fn stream_in(buf: &[u8], headers: &[HeaderSpan]) -> Option<StreamId>
    requires { All (IsHeaderWithin (length buf.now)) headers.now }
    ensures { result ≡ stream_in (values_in buf.now headers.now (codes "mesos-stream-id")) }
{
    match first_named(buf, headers, b"mesos-stream-id") {
        Some(i) => stream_by(headers[i].value.of(buf)),
        None => None,
    }
}
