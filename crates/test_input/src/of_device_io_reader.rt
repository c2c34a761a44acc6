//! Lines over pieces.

use frame_record::{LONGEST_LINE, LineReader};
use std::alloc::Global;

/// Whether a piece ends just these lines.
fn ends(reader: &mut LineReader, alloc: Global, piece: &[u8], wanted: &[&[u8]]) -> bool {
    match reader.feed(alloc, piece) {
        Ok(lines) => {
            lines.len() == wanted.len()
                && lines
                    .iter()
                    .zip(wanted)
                    .all(|(line, wanted)| line.as_slice() == *wanted)
        }
        Err(_) => false,
    }
}

/// A line ends in the piece that has its line feed.
pub fn a_line_may_come_in_pieces(alloc: Global) -> bool {
    let mut reader = LineReader::new(alloc);
    let begun = ends(&mut reader, alloc, b"a", &[]);
    let ended = ends(&mut reader, alloc, b"b\n\nc", &[b"ab", b""]);
    begun && ended && reader.into_rest().as_slice() == b"c".as_slice()
}

/// How much is kept of a line that is too long.
fn kept_of_a_long_line(alloc: Global) -> Option<usize> {
    let piece = vec![in alloc; b'x'; LONGEST_LINE + 2].ok()?;
    let mut reader = LineReader::new(alloc);
    if ends(&mut reader, alloc, &piece, &[]) {
        Some(reader.into_rest().len())
    } else {
        None
    }
}

/// Of a line that is too long one byte over the limit is kept.
pub fn a_long_line_takes_no_more_memory(alloc: Global) -> bool {
    kept_of_a_long_line(alloc) == Some(LONGEST_LINE + 1)
}
