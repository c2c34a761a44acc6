use http_head::{Body, Place, RequestFault, Scan, are_trailers, judge_head, judge_line};
use std::alloc::Global;

/// A head with these lines after the start line and the media type.
fn head(alloc: Global, fields: &str) -> Option<String> {
    format!(in alloc;
        "POST /api/v1/scheduler HTTP/1.1\r\nContent-Type: application/json\r\n{fields}\r\n"
    ).ok()
}

fn fault_of(text: &[u8]) -> Option<RequestFault> {
    match judge_head(text) {
        Ok(_) => None,
        Err(fault) => Some(fault),
    }
}

const HEADS: [(&[u8], RequestFault); 9] = [
    (b"GET /x HTTP/1.0\r\n\r\n", RequestFault::BadHead),
    (b"GET /x HTTP/1.2\r\n\r\n", RequestFault::BadHead),
    (b"GET /x HTTP/1.1\r\n\r\n", RequestFault::NoSuchPath),
    (
        b"POST /api/v1/scheduler?x HTTP/1.1\n\n",
        RequestFault::NoSuchPath,
    ),
    (b"GET /api/v1/scheduler HTTP/1.1\n\n", RequestFault::NotPost),
    (
        b"POST /api/v1/scheduler HTTP/1.1\r\n\r\n",
        RequestFault::WrongMedia,
    ),
    (
        b"POST /api/v1/scheduler HTTP/1.1\r\nContent-Type: application/json, x\r\n\r\n",
        RequestFault::WrongMedia,
    ),
    (
        b"POST /api/v1/scheduler HTTP/1.1\r\nContent-Type: text/plain\r\nContent-Type: application/json\r\n\r\n",
        RequestFault::WrongMedia,
    ),
    (
        b"POST /api/v1/scheduler HTTP/1.1\r\nContent-Type: APPLICATION/Json \t;x\r\nContent-Length: +5\r\n\r\n",
        RequestFault::BadBody,
    ),
];

/// Each head is refused by its first fault.
pub fn heads_are_refused_in_order() -> bool {
    for (text, fault) in HEADS {
        if fault_of(text) != Some(fault) {
            return false;
        }
    }
    true
}

const LENGTHS: [(&str, Result<Body, RequestFault>); 9] = [
    ("", Ok(Body::Sized(0))),
    ("content-LENGTH: 0075\r\n", Ok(Body::Sized(75))),
    ("Content-Length: 1048576\r\n", Ok(Body::Sized(1048576))),
    ("Content-Length: 1048577\r\n", Err(RequestFault::TooLong)),
    (
        "Content-Length: 1000000000000000000000\r\n",
        Err(RequestFault::TooLong),
    ),
    (
        "Content-Length: 5\r\nContent-Length: 5\r\n",
        Err(RequestFault::BadBody),
    ),
    ("Transfer-Encoding: Chunked\r\n", Ok(Body::Chunked)),
    (
        "Transfer-Encoding: gzip, chunked\r\n",
        Err(RequestFault::BadBody),
    ),
    (
        "Content-Length: 9999999\r\nTransfer-Encoding: chunked\r\n",
        Err(RequestFault::BadBody),
    ),
];

fn body_of(alloc: Global, fields: &str) -> Option<Result<Body, RequestFault>> {
    let text = head(alloc, fields)?;
    match judge_head(text.as_bytes()) {
        Ok(plan) => Some(Ok(plan.body)),
        Err(fault) => Some(Err(fault)),
    }
}

/// How a body comes, by its fields.
pub fn length_fields_are_judged(alloc: Global) -> bool {
    for (fields, want) in LENGTHS {
        if body_of(alloc, fields) != Some(want) {
            return false;
        }
    }
    true
}

/// Whether the body is waited for, whether the connection is closed then,
/// and whether a stream is named.
fn others_of(alloc: Global, fields: &str) -> Option<(bool, bool, bool)> {
    let text = head(alloc, fields)?;
    match judge_head(text.as_bytes()) {
        Ok(plan) => Some((plan.expects, plan.closes, plan.stream.is_some())),
        Err(_) => None,
    }
}

const FIELDS: &str = "Expect: 100-Continue\r\nConnection: a , CLOSE\r\nMesos-Stream-Id: S1-1\r\n";

const OTHER_FIELDS: &str =
    "Expect: 100-continue, x\r\nConnection: closed\r\nConnection: close\r\nMesos-Stream-Id: bad\r\nMesos-Stream-Id: S1-1\r\n";

/// Of Expect, Connection and Mesos-Stream-Id the first field counts.
pub fn the_first_of_other_fields_counts(alloc: Global) -> bool {
    let first = others_of(alloc, FIELDS) == Some((true, true, true));
    first && others_of(alloc, OTHER_FIELDS) == Some((false, false, false))
}

const PARTS: [(&[u8], Place, Option<usize>); 8] = [
    (b"\r\n\na\n\nb", Place::Front, Some(6)),
    (b"a\r\nb\r\n\r\n", Place::Front, Some(8)),
    (b"a\r\n\r\r\n", Place::Front, None),
    (b"\n\r\n\n", Place::Front, None),
    (b"\r\nx", Place::Start, Some(2)),
    (b"a: b\n\nx", Place::Start, Some(6)),
    (b"5;x\r\nhello", Place::Line, Some(5)),
    (b"5;x\r", Place::Line, None),
];

fn cut_at(text: &[u8], place: Place) -> Option<usize> {
    let mut scan = Scan::new(place);
    scan.look(text)
}

/// Where a head, a line and the lines after a body end.
pub fn parts_are_cut() -> bool {
    for (text, place, want) in PARTS {
        if cut_at(text, place) != want {
            return false;
        }
    }
    true
}

const LINES: [(&[u8], Option<u64>); 8] = [
    (b"5\r\n", Some(5)),
    (b"000\r\n", Some(0)),
    (b"fF ;x=1\r\n", Some(255)),
    (b"ffffffffffffffff\r\n", Some(18446744073709551615)),
    (b"00000000000000005\r\n", None),
    (b"5\n", None),
    (b"\r\n", None),
    (b"5\r\n1", None),
];

fn lines_are_judged() -> bool {
    for (text, want) in LINES {
        if judge_line(text) != want {
            return false;
        }
    }
    true
}

/// The size lines of chunks, and the fields after the last one.
pub fn chunk_lines_and_trailers() -> bool {
    let taken = are_trailers(b"\r\n") && are_trailers(b"a: b\nc:\r\n\n");
    let refused = !are_trailers(b"a b\r\n\r\n") && !are_trailers(b"a: b\r\n");
    lines_are_judged() && taken && refused
}
