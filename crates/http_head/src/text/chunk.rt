//! The chunks of an event stream.

ghost use Rattle.std.specs.Prelude.{◌≡◌, ◌++◌, ◌<◌, ◌^◌, ◌∷◌, [], ℕ, List, length, string_bytes, IfOk};
ghost use Rattle.http_head.specs.Responses.{chunk_line, record_line, event_chunk, last_chunk};

use std::alloc::{AllocError, Global};

/// What is in an event's chunk before its text.
#[derive(Drop)]
pub struct SizeLines {
    /// The size line of the chunk.
    pub chunk: String,
    /// The size line of the record.
    pub record: String,
}

/// The size lines of the chunk of an event whose text has so many bytes.
pub fn size_lines(alloc: Global, len: usize) -> Result<SizeLines, AllocError>
    requires { len < 2 ^ 63 }
    ensures chunk { IfOk result (λ lines. string_bytes lines.chunk ≡ chunk_line len) }
    ensures record { IfOk result (λ lines. string_bytes lines.record ≡ record_line len) }
{
    let record = format!(in alloc; "{len}\n")?;
    let size = record.len() + len;
    let chunk = format!(in alloc; "{size:x}\r\n")?;
    Ok(SizeLines { chunk, record })
}

/// What ends a stream of chunks: the last chunk, and no trailers.
#[tactic(auto, unfolding(crate::specs::Responses::last_chunk))]
pub fn last_chunk() -> &'static [u8]
    ensures { result.now ≡ last_chunk }
{
    b"0\r\n\r\n"
}

/// The chunk of an event is its size lines, its text and a line end.
pub fn one_chunk()
    ensures { (text : List ℕ) → event_chunk text ≡ chunk_line (length text)
        ++ (record_line (length text) ++ (text ++ 13 ∷ 10 ∷ [])) }
{}
