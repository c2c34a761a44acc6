//! The checks on a head.

ghost use Rattle.std.specs.Prelude.{◌≡◌, ℕ, ◌≤◌, ◌⊎◌, length, map, All, List, IfOk, IfErr, Ok, Err};
ghost use Rattle.httparse.specs.Grammar.{RequestHead};
ghost use Rattle.httparse.specs.Spans.{header_bytes, IsHeaderWithin};
ghost use Rattle.http_head.specs.Heads.{fields_check, check_of, head_check, IsHead, IsNoHead, IsWithinLimit};
ghost use Rattle.http_head.specs.declared.fault.RequestFault.TheVariants.{BadHead};

use crate::fault::RequestFault;
use crate::fields::{body_by, closes, expects, has_json, stream_in};
use crate::plan::Plan;
use httparse::Status;
use httparse::spans::{EMPTY_HEADER_SPAN, HeaderSpan, parse_request};

/// The checks on the media type and the length fields, and how the request goes on.
fn plan_of(buf: &[u8], headers: &[HeaderSpan]) -> Result<Plan, RequestFault>
    requires { All (IsHeaderWithin (length buf.now)) headers.now }
    ensures value { result ≡ fields_check (map (header_bytes buf.now) headers.now) }
    ensures limit { IfOk result (λ p. IsWithinLimit p.body) }
{
    if !has_json(buf, headers) {
        return Err(RequestFault::WrongMedia);
    }
    match body_by(buf, headers) {
        Ok(body) => Ok(Plan {
            body,
            expects: expects(buf, headers),
            closes: closes(buf, headers),
            stream: stream_in(buf, headers),
        }),
        Err(fault) => Err(fault),
    }
}

/// The checks on a head that parsed, in order.
fn check(
    buf: &[u8],
    minor: u8,
    target: &[u8],
    method: &[u8],
    headers: &[HeaderSpan],
) -> Result<Plan, RequestFault>
    requires { All (IsHeaderWithin (length buf.now)) headers.now }
    ensures value { result ≡ check_of minor target.now method.now
        (map (header_bytes buf.now) headers.now) }
    ensures limit { IfOk result (λ p. IsWithinLimit p.body) }
{
    if minor != 1 {
        return Err(RequestFault::BadHead);
    }
    if target != b"/api/v1/scheduler".as_slice() {
        return Err(RequestFault::NoSuchPath);
    }
    if method != b"POST".as_slice() {
        return Err(RequestFault::NotPost);
    }
    plan_of(buf, headers)
}

/// Judges a head that was cut, by `httparse`'s grammar and then by the checks,
/// of which the first that fails answers.
pub fn judge_head(text: &[u8]) -> Result<Plan, RequestFault>
    ensures limit { IfOk result (λ p. IsWithinLimit p.body) }
    ensures ok { IfOk result (λ p. (h : RequestHead) × IsHead text.now h × (head_check h ≡ Ok p)) }
    ensures err { IfErr result (λ r. ((r ≡ BadHead) × IsNoHead text.now)
        ⊎ ((h : RequestHead) × IsHead text.now h × (head_check h ≡ Err r))) }
{
    let mut headers = [EMPTY_HEADER_SPAN; 64];
    let Ok(Status::Complete(head)) = parse_request(text, &mut headers) else {
        return Err(RequestFault::BadHead);
    };
    if head.len != text.len() {
        return Err(RequestFault::BadHead);
    }
    let target = head.path.of(text);
    let method = head.method.of(text);
    check(text, head.version, target, method, &headers[..head.headers])
}
