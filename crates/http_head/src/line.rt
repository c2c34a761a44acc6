//! Chunk lines and trailers.

ghost use Rattle.std.specs.Prelude.{◌≡◌, ℕ, ◌↔◌, IfSome, None, IsTrue};
ghost use Rattle.httparse.specs.Grammar.{ChunkLine, chunk_size};
ghost use Rattle.http_head.specs.Lines.{IsLine, IsTrailers};

use httparse::spans::{EMPTY_HEADER_SPAN, parse_headers};
use httparse::{Status, parse_chunk_size};

/// The size in a chunk's line, which was cut at its line feed (RFC 9112, section 7.1).
/// `None` where it doesn't parse.
pub fn judge_line(text: &[u8]) -> Option<u64>
    ensures some { IfSome result (λ size. (l : ChunkLine) × IsLine text.now l
        × (size ≡ chunk_size l)) }
    ensures none { result ≡ None → (l : ChunkLine) → ¬ (IsLine text.now l) }
{
    match parse_chunk_size(text) {
        Ok(Status::Complete((len, size))) if len == text.len() => Some(size),
        _ => None,
    }
}

/// Whether a text is trailers: at most 64 fields and an empty line.
pub fn are_trailers(text: &[u8]) -> bool
    ensures { IsTrue result ↔ IsTrailers text.now }
{
    let mut headers = [EMPTY_HEADER_SPAN; 64];
    match parse_headers(text, &mut headers) {
        Ok(Status::Complete((len, _))) => len == text.len(),
        _ => false,
    }
}
