//! Two connections over one master:
//! the first one's stream is open while the second one makes its call.

use crate::desk::{Beside, Desk, Reply, answer};
use http_door::ConnectionFault;
use std::alloc::Global;

const SUBSCRIBE: &str =
    "POST /api/v1/scheduler HTTP/1.1\r\nHost: 127.0.0.1\r\nContent-Type: application/json\r\nContent-Length: 75\r\n\r\n{\"type\":\"SUBSCRIBE\",\"subscribe\":{\"framework_info\":{\"user\":\"u\",\"name\":\"n\"}}}";

const AGAIN: &str =
    "POST /api/v1/scheduler HTTP/1.1\r\nHost: 127.0.0.1\r\nContent-Type: application/json\r\nContent-Length: 97\r\n\r\n{\"type\":\"SUBSCRIBE\",\"subscribe\":{\"framework_info\":{\"user\":\"u\",\"name\":\"n\",\"id\":{\"value\":\"F1-1\"}}}}";

const TEARDOWN: &str =
    "POST /api/v1/scheduler HTTP/1.1\r\nContent-Type: application/json\r\nContent-Length: 51\r\n\r\n{\"framework_id\":{\"value\":\"F1-1\"},\"type\":\"TEARDOWN\"}";

/// A stream that receives an ERROR event at another subscription, and ends.
const FAILED_OVER: &str =
    "HTTP/1.1 200 OK\r\nContent-Type: application/json\r\nTransfer-Encoding: chunked\r\nMesos-Stream-Id: S1-1\r\n\r\n68\r\n100\n{\"subscribed\":{\"framework_id\":{\"value\":\"F1-1\"},\"heartbeat_interval_seconds\":15},\"type\":\"SUBSCRIBED\"}\r\n3f\r\n60\n{\"error\":{\"message\":\"Framework failed over\"},\"type\":\"ERROR\"}\r\n0\r\n\r\n";

/// The stream of the other subscription.
const OTHER_STREAM: &str =
    "HTTP/1.1 200 OK\r\nContent-Type: application/json\r\nTransfer-Encoding: chunked\r\nMesos-Stream-Id: S1-2\r\n\r\n68\r\n100\n{\"subscribed\":{\"framework_id\":{\"value\":\"F1-1\"},\"heartbeat_interval_seconds\":15},\"type\":\"SUBSCRIBED\"}\r\n0\r\n\r\n";

/// A stream that broke off.
const BROKEN_OFF: &str =
    "HTTP/1.1 200 OK\r\nContent-Type: application/json\r\nTransfer-Encoding: chunked\r\nMesos-Stream-Id: S1-1\r\n\r\n68\r\n100\n{\"subscribed\":{\"framework_id\":{\"value\":\"F1-1\"},\"heartbeat_interval_seconds\":15},\"type\":\"SUBSCRIBED\"}\r\n";

const WRONG_STREAM: &str =
    "HTTP/1.1 400 Bad Request\r\nContent-Type: text/plain\r\nContent-Length: 15\r\nConnection: close\r\n\r\nM2 WrongStream\n";

const NOT_SUBSCRIBED: &str =
    "HTTP/1.1 403 Forbidden\r\nContent-Type: text/plain\r\nContent-Length: 17\r\nConnection: close\r\n\r\nM1 NotSubscribed\n";

/// A connection whose client sends this, and whose outlet fails after so many writes;
/// beside it another request, and a later moment.
fn beside(alloc: Global, other: &str, later: u32) -> Option<Beside> {
    let other = Vec::from_slice(alloc, other.as_bytes()).ok()?;
    Beside::new(alloc, other, later)
}

fn subscribes(alloc: Global, bench: &mut Beside, writes: u64) -> Option<Reply> {
    let request = Vec::from_slice(alloc, SUBSCRIBE.as_bytes()).ok()?;
    Some(answer(alloc, bench, request, 1 << 20, writes))
}

fn tears_down(alloc: Global, desk: &mut Desk) -> Option<Reply> {
    let request = Vec::from_slice(alloc, TEARDOWN.as_bytes()).ok()?;
    Some(answer(alloc, desk, request, 1 << 20, 1 << 30))
}

fn is(bytes: &Vec<u8>, text: &str) -> bool {
    bytes.as_slice() == text.as_bytes()
}

/// Whether the first of two connections ends well, and both got this.
fn get(alloc: Global, bench: &mut Beside, first: &str, second: &str) -> bool {
    match subscribes(alloc, bench, 1 << 30) {
        Some(reply) => reply.ended.is_ok() && is(&reply.got, first) && is(&bench.got, second),
        None => false,
    }
}

/// The framework subscribes again on another connection: its first stream receives an ERROR event,
/// and ends.
pub fn a_framework_fails_over(alloc: Global) -> bool {
    match beside(alloc, AGAIN, 1) {
        Some(mut bench) => get(alloc, &mut bench, FAILED_OVER, OTHER_STREAM),
        None => false,
    }
}

/// Whether the first connection breaks off at the heartbeat,
/// after the head and the four parts of the first chunk, and the other one was refused beside it.
fn breaks_off(alloc: Global, bench: &mut Beside) -> bool {
    match subscribes(alloc, bench, 5) {
        Some(reply) => {
            reply.ended == Err(ConnectionFault::Failed)
                && is(&reply.got, BROKEN_OFF)
                && is(&bench.got, WRONG_STREAM)
        }
        None => false,
    }
}

fn is_not_subscribed(alloc: Global, desk: &mut Desk) -> bool {
    match tears_down(alloc, desk) {
        Some(reply) => is(&reply.got, NOT_SUBSCRIBED),
        None => false,
    }
}

/// A call without its stream, while the stream is open and after it hung up.
pub fn a_call_without_its_stream(alloc: Global) -> bool {
    match beside(alloc, TEARDOWN, 15) {
        Some(mut bench) => {
            let is = breaks_off(alloc, &mut bench) && is_not_subscribed(alloc, &mut bench.desk);
            drop(bench);
            is
        }
        None => false,
    }
}
