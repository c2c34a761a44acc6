//! Whole responses, and the head of an event stream.

ghost use Rattle.std.specs.Prelude.{◌≡◌, IfOk};
ghost use Rattle.http_head.specs.Responses.{refusal_response, accepted_response, continue_response, subscribed_response};

use crate::text::status::Status;
use names_core::StreamId;
use std::alloc::{AllocError, Global};

/// The response to a request that is refused with this text, which is its body with a line feed.
/// The connection ends after it.
#[tactic(auto, unfolding(crate::specs::Responses::refusal_response))]
pub fn refusal_response(alloc: Global, status: Status, text: &str) -> Result<Vec<u8>, AllocError>
    ensures { IfOk result (λ v. v.items ≡ refusal_response status text.now) }
{
    let lines = status.lines();
    let length = text.len() + 1;
    let response = format!(in alloc;
        "{lines}Content-Type: text/plain\r\nContent-Length: {length}\r\nConnection: close\r\n\r\n{text}\n"
    )?;
    Ok(response.into_bytes())
}

/// The response to a call that was accepted and is no SUBSCRIBE.
#[tactic(auto, unfolding(crate::specs::Responses::accepted_response))]
pub fn accepted_response() -> &'static [u8]
    ensures { result.now ≡ accepted_response }
{
    b"HTTP/1.1 202 Accepted\r\nContent-Length: 0\r\n\r\n"
}

/// The interim response to `Expect: 100-continue` (RFC 9110, section 10.1.1).
#[tactic(auto, unfolding(crate::specs::Responses::continue_response))]
pub fn continue_response() -> &'static [u8]
    ensures { result.now ≡ continue_response }
{
    b"HTTP/1.1 100 Continue\r\n\r\n"
}

/// The head of the response to a SUBSCRIBE that opened this stream. Chunks follow it.
#[tactic(auto, unfolding(crate::specs::Responses::subscribed_response))]
pub fn subscribed_response(alloc: Global, stream: StreamId) -> Result<Vec<u8>, AllocError>
    ensures { IfOk result (λ v. v.items ≡ subscribed_response stream) }
{
    let Ok(id) = stream.to_text(alloc) else {
        return Err(AllocError);
    };
    let response = format!(in alloc;
        "HTTP/1.1 200 OK\r\nContent-Type: application/json\r\nTransfer-Encoding: chunked\r\nMesos-Stream-Id: {id}\r\n\r\n"
    )?;
    Ok(response.into_bytes())
}
