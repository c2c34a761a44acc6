ghost use Rattle.std.specs.Prelude.{◌<◌};

use http_door::{Answer, Bench, BenchFault, ConnectionFault, NoGate, Sink, Source, serve_conn};
use messages::{Call, Event, MasterRefusal};
use names_core::{FrameworkId, StreamId};
use std::alloc::{AllocError, Global};

const ACCEPTED: &str = "HTTP/1.1 202 Accepted\r\nContent-Length: 0\r\n\r\n";

const BAD_HEAD: &str =
    "HTTP/1.1 400 Bad Request\r\nContent-Type: text/plain\r\nContent-Length: 11\r\nConnection: close\r\n\r\nH1 BadHead\n";

const BAD_BODY: &str =
    "HTTP/1.1 400 Bad Request\r\nContent-Type: text/plain\r\nContent-Length: 11\r\nConnection: close\r\n\r\nH6 BadBody\n";

const TOO_LONG: &str =
    "HTTP/1.1 413 Content Too Large\r\nContent-Type: text/plain\r\nContent-Length: 11\r\nConnection: close\r\n\r\nH5 TooLong\n";

const NOT_SUBSCRIBED: &str =
    "HTTP/1.1 403 Forbidden\r\nContent-Type: text/plain\r\nContent-Length: 17\r\nConnection: close\r\n\r\nM1 NotSubscribed\n";

/// What is sent for an input that is no request, or whose head is refused.
const HEADS: [(&str, &str); 8] = [
    ("", ""),
    ("\r\n\n", ""),
    ("\r\n\r", BAD_HEAD),
    ("POST /api", BAD_HEAD),
    (
        "GET /x HTTP/1.1\r\n\r\n",
        "HTTP/1.1 404 Not Found\r\nContent-Type: text/plain\r\nContent-Length: 14\r\nConnection: close\r\n\r\nH2 NoSuchPath\n",
    ),
    (
        "GET /api/v1/scheduler HTTP/1.1\n\n",
        "HTTP/1.1 405 Method Not Allowed\r\nAllow: POST\r\nContent-Type: text/plain\r\nContent-Length: 11\r\nConnection: close\r\n\r\nH3 NotPost\n",
    ),
    (
        "POST /api/v1/scheduler HTTP/1.1\nContent-Type: text/plain\n\n",
        "HTTP/1.1 415 Unsupported Media Type\r\nContent-Type: text/plain\r\nContent-Length: 14\r\nConnection: close\r\n\r\nH4 WrongMedia\n",
    ),
    (
        "POST /api/v1/scheduler HTTP/1.1\r\nContent-Type: application/json\r\nExpect: 100-continue\r\nContent-Length: 1048577\r\n\r\n",
        TOO_LONG,
    ),
];

/// What is sent for a body by its length, one that is waited for, and bodies in chunks.
const BODIES: [(&str, &str); 7] = [
    (
        "POST /api/v1/scheduler HTTP/1.1\r\nContent-Type: application/json\r\nContent-Length: 50\r\n\r\n{\"type\":\"REVIVE\",\"framework_id\":{\"value\":\"F1-1\"}}",
        BAD_BODY,
    ),
    (
        "POST /api/v1/scheduler HTTP/1.1\r\nContent-Type: application/json\r\n\r\n",
        "HTTP/1.1 400 Bad Request\r\nContent-Type: text/plain\r\nContent-Length: 11\r\nConnection: close\r\n\r\nJ1 NotJson\n",
    ),
    (
        "POST /api/v1/scheduler HTTP/1.1\r\nContent-Type: application/json\r\nContent-Length: 49\r\nConnection: Close\r\n\r\n{\"type\":\"REVIVE\",\"framework_id\":{\"value\":\"F1-1\"}}left",
        ACCEPTED,
    ),
    (
        "POST /api/v1/scheduler HTTP/1.1\r\nContent-Type: application/json\r\nExpect: 100-continue\r\nContent-Length: 49\r\n\r\n{\"type\":\"REVIVE\",\"framework_id\":{\"value\":\"F1-1\"}}",
        "HTTP/1.1 100 Continue\r\n\r\nHTTP/1.1 202 Accepted\r\nContent-Length: 0\r\n\r\n",
    ),
    (
        "POST /api/v1/scheduler HTTP/1.1\r\nContent-Type: application/json\r\nTransfer-Encoding: chunked\r\n\r\n1\r\n{\r\n2f;x\r\n\"type\":\"REVIVE\",\"framework_id\":{\"value\":\"F1-1\"}\r\n1\r\n}\r\n000\r\na: b\n\r\n\nPOST /api/v1/scheduler HTTP/1.1\r\nContent-Type: application/json\r\nTransfer-Encoding: chunked\r\n\r\n1\r\n{\r\n2f;x\r\n\"type\":\"REVIVE\",\"framework_id\":{\"value\":\"F1-1\"}\r\n1\r\n}\r\n000\r\na: b\n\r\n",
        "HTTP/1.1 202 Accepted\r\nContent-Length: 0\r\n\r\nHTTP/1.1 202 Accepted\r\nContent-Length: 0\r\n\r\n",
    ),
    (
        "POST /api/v1/scheduler HTTP/1.1\r\nContent-Type: application/json\r\nTransfer-Encoding: chunked\r\n\r\n1\r\n{x\r\n0\r\n\r\n",
        BAD_BODY,
    ),
    (
        "POST /api/v1/scheduler HTTP/1.1\r\nContent-Type: application/json\r\nTransfer-Encoding: chunked\r\n\r\n1\r\n{\r\nffffffffffffffff\r\n",
        TOO_LONG,
    ),
];

/// A call that the bench refuses.
const REVIVE: &str =
    "POST /api/v1/scheduler HTTP/1.1\r\nContent-Type: application/json\r\nContent-Length: 49\r\n\r\n{\"type\":\"REVIVE\",\"framework_id\":{\"value\":\"F1-1\"}}";

/// Accepts or refuses each call, and returns so many events of a stream.
#[derive(Drop)]
struct Script {
    accepts: bool,
    events: u64,
    hung_up: bool,
}

impl Bench for Script {
    ghost use Rattle.std.specs.Prelude.{⊤};

    ghost does = { λ _ _ _. ⊤ };

    fn call(&mut self, _stream: Option<StreamId>, call: Call) -> Answer {
        match call {
            Call::Subscribe { .. } => Answer::Opened(StreamId::new(1, 1)),
            _ if self.accepts => Answer::Accepted,
            _ => Answer::Refused(BenchFault::Master(MasterRefusal::NotSubscribed)),
        }
    }

    fn next_events(&mut self, _stream: StreamId) -> Result<Option<Event>, AllocError> {
        if self.events == 0 {
            return Ok(None);
        }
        self.events -= 1;
        Ok(Some(Event::Subscribed {
            framework: FrameworkId::new(1, 1),
        }))
    }

    fn hang_up(&mut self, _stream: StreamId) {
        self.hung_up = true;
    }
}

/// What is sent back for an input that comes in pieces of so many bytes.
fn answer_to(alloc: Global, bytes: Vec<u8>, most: usize, accepts: bool) -> Option<Vec<u8>> {
    let mut source = Source {
        bytes,
        most,
        turns: 1 << 30,
        faults: 0,
    };
    let mut sink = Sink {
        bytes: Vec::new(alloc),
        most,
        turns: 1 << 30,
        faults: 0,
    };
    let mut bench = Script {
        accepts,
        events: 1,
        hung_up: false,
    };
    match serve_conn(alloc, &mut source, &mut sink, &mut bench, &NoGate) {
        Ok(()) => Some(sink.bytes),
        Err(_) => None,
    }
}

fn answer(alloc: Global, input: &str, most: usize, accepts: bool) -> Option<Vec<u8>> {
    match Vec::from_slice(alloc, input.as_bytes()) {
        Ok(bytes) => answer_to(alloc, bytes, most, accepts),
        Err(_) => None,
    }
}

fn is_answered(alloc: Global, input: &str, want: &str, most: usize, accepts: bool) -> bool {
    match answer(alloc, input, most, accepts) {
        Some(sent) => sent.as_slice() == want.as_bytes(),
        None => false,
    }
}

/// Whether this is sent back, in whatever pieces the input comes.
fn is_sent(alloc: Global, input: &str, want: &str, accepts: bool) -> bool {
    is_answered(alloc, input, want, 1, accepts)
        && is_answered(alloc, input, want, 3, accepts)
        && is_answered(alloc, input, want, 1 << 20, accepts)
}

/// The place of the first of these that is answered otherwise.
fn first_other(alloc: Global, cases: &[(&str, &str)]) -> Option<usize> {
    for i in 0..cases.len() {
        let (input, want) = cases[i];
        if !is_sent(alloc, input, want, true) {
            return Some(i);
        }
    }
    None
}

/// What is sent for an input that is no request, or whose head is refused.
pub fn heads(alloc: Global) -> bool {
    first_other(alloc, &HEADS).is_none()
}

/// What is sent for a body that is refused, and for a call.
pub fn bodies(alloc: Global) -> bool {
    first_other(alloc, &BODIES).is_none() && is_sent(alloc, REVIVE, NOT_SUBSCRIBED, false)
}

const SUBSCRIBE: &str =
    "POST /api/v1/scheduler HTTP/1.1\r\nHost: 127.0.0.1\r\nContent-Type: application/json\r\nContent-Length: 75\r\n\r\n{\"type\":\"SUBSCRIBE\",\"subscribe\":{\"framework_info\":{\"user\":\"u\",\"name\":\"n\"}}}";

const STREAM: &str =
    "HTTP/1.1 200 OK\r\nContent-Type: application/json\r\nTransfer-Encoding: chunked\r\nMesos-Stream-Id: S1-1\r\n\r\n68\r\n100\n{\"subscribed\":{\"framework_id\":{\"value\":\"F1-1\"},\"heartbeat_interval_seconds\":15},\"type\":\"SUBSCRIBED\"}\r\n0\r\n\r\n";

/// A stream of events.
pub fn a_stream(alloc: Global) -> bool {
    is_sent(alloc, SUBSCRIBE, STREAM, true)
}

/// How a connection ends whose inlet fails after so many reads of 16 bytes and its outlet after so
/// many writes, whether its stream is hung up, and what was sent.
fn broken_off(
    alloc: Global,
    bytes: Vec<u8>,
    reads: u64,
    writes: u64,
) -> (Result<(), ConnectionFault>, bool, Vec<u8>) {
    let mut source = Source {
        bytes,
        most: 16,
        turns: reads,
        faults: 0,
    };
    let mut sink = Sink {
        bytes: Vec::new(alloc),
        most: 1 << 20,
        turns: writes,
        faults: 0,
    };
    let mut bench = Script {
        accepts: true,
        events: 1,
        hung_up: false,
    };
    let ended = serve_conn(alloc, &mut source, &mut sink, &mut bench, &NoGate);
    (ended, bench.hung_up, sink.bytes)
}

/// Whether a SUBSCRIBE whose link fails there ends as a failed link does: what was sent is a
/// beginning of the stream, and the stream is hung up where it was opened.
fn fails_at(alloc: Global, reads: u64, writes: u64, is_opened: bool) -> bool {
    let Ok(bytes) = Vec::from_slice(alloc, SUBSCRIBE.as_bytes()) else {
        return false;
    };
    let (ended, hung_up, sent) = broken_off(alloc, bytes, reads, writes);
    ended == Err(ConnectionFault::Failed)
        && hung_up == is_opened
        && STREAM.as_bytes().starts_with(sent.as_slice())
        && (is_opened || sent.is_empty())
}

/// So many writes send the stream of one event: its head, the four parts of a chunk, the last chunk.
const WRITES: u64 = 6;

/// So many reads of 16 bytes take the SUBSCRIBE.
const READS: u64 = 12;

/// The outlet fails at each of its writes, and the inlet at each of its reads.
pub fn a_link_may_fail_anywhere(alloc: Global) -> bool {
    for writes in 0..WRITES {
        if !fails_at(alloc, u64::MAX, writes, true) {
            return false;
        }
    }
    for reads in 0..READS {
        if !fails_at(alloc, reads, u64::MAX, false) {
            return false;
        }
    }
    true
}
