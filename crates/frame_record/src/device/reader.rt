//! A reader that is fed a text in pieces.

ghost use Rattle.std.specs.Prelude.{◌≡◌, ◌++◌, [], List, ℕ, IfOk};
ghost use Rattle.frame_record.specs.Texts.{Reads, bodies, lines_of};

use std::alloc::{AllocError, Global};
use std::marker::Model;
use std::mem;

/// As many bytes as a line may have, without its line feed.
/// Of a longer one the reader keeps one byte more, and no further ones.
pub const LONGEST_LINE: usize = 1_048_576;

/// A reader of a text: what it keeps of the line that hasn't ended yet.
#[derive(Drop)]
pub struct LineReader {
    rest: Vec<u8>,
}

impl Model for LineReader {
    ghost use Rattle.std.specs.Prelude.{List, ℕ};

    ghost Value = { List ℕ };

    ghost view = { λ r. r.rest.items };
}

impl LineReader {
    /// A reader at the beginning of a text.
    pub fn new(alloc: Global) -> LineReader
        ensures { Reads [] [] result }
    {
        LineReader {
            rest: Vec::new(alloc),
        }
    }

    /// Takes the next piece of the text, of any length, and returns the lines that it ends.
    pub fn feed(&mut self, alloc: Global, piece: &[u8]) -> Result<Vec<Vec<u8>>, AllocError>
        ensures { IfOk result
            (λ lines. (text : List ℕ) (before : List (List ℕ)) → Reads text before self.old
            → Reads (text ++ piece.now) (before ++ bodies lines.items) self.new) }
    {
        let mut lines = Vec::new(alloc);
        for byte in piece {
            if *byte == b'\n' {
                lines.push(mem::replace(&mut self.rest, Vec::new(alloc)))?;
            } else if self.rest.len() <= LONGEST_LINE {
                self.rest.push(*byte)?;
            }
        }
        Ok(lines)
    }

    /// What is kept of the last line, which no line feed ended; it may be empty.
    pub fn into_rest(self) -> Vec<u8>
        ensures { result.items ≡ self }
    {
        let LineReader { rest } = self;
        rest
    }
}

/// The lines of the beginning of a text are the first lines of the whole text.
pub fn first_lines_stay()
    ensures { (text more : List ℕ) → (others : List (List ℕ))
        × ((lines_of (text ++ more)).ended ≡ (lines_of text).ended ++ others) }
{}
