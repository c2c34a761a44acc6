//! The answer to a text.

ghost use Rattle.std.specs.Prelude.{◌≡◌, ◌<◌, ◌++◌, length, vec_len, IfOk, IfSome, OnOk, OnErr};
ghost use Rattle.std.specs.Io.KnownBytes.{Appends};
ghost use Rattle.frame_record.specs.Writes.{AppendsFront};
ghost use Rattle.frame_record.specs.Texts.{all_lines, bodies, last_line};
ghost use Rattle.frame_record.specs.Answers.{after_all, answer, answered_texts};

use crate::device::answerer::LineAnswerer;
use crate::device::output::{put, read_some};
use crate::device::reader::{LineReader, first_lines_stay};
use std::alloc::{AllocError, Global};
use std::io::{self, ErrorKind, Read, Write};

/// How many bytes are read at a time, at most.
const PIECE: usize = 65_536;

/// Why a text wasn't answered to its end.
#[derive(Debug, Drop)]
pub enum Stop {
    /// Memory was refused.
    Memory,
    /// The reader or the writer failed.
    Device(io::Error),
}

fn write_all<W: Write>(text: &[u8], writer: &mut W) -> Result<(), Stop>
    ensures ok { OnOk result (Appends (W.contents writer.old) (W.contents writer.new) text.now) }
    ensures err { OnErr result
        (AppendsFront (W.contents writer.old) (W.contents writer.new) text.now) }
{
    match put(writer, text) {
        Ok(()) => Ok(()),
        Err(e) => Err(Stop::Device(e)),
    }
}

/// Writes the answer to a line.
fn answer_one<T: LineAnswerer, W: Write>(
    alloc: Global,
    answerer: &mut T,
    line: &[u8],
    writer: &mut W,
) -> Result<(), Stop>
    ensures ok { OnOk result (Appends (W.contents writer.old) (W.contents writer.new)
        (T.answered_text answerer.old line.now)) }
    ensures after { OnOk result (answerer.new ≡ T.after answerer.old line.now) }
    ensures err { OnErr result
        (AppendsFront (W.contents writer.old) (W.contents writer.new)
        (T.answered_text answerer.old line.now)) }
{
    let text = match answerer.answer_line(alloc, line) {
        Ok(text) => text,
        Err(_) => return Err(Stop::Memory),
    };
    write_all(&text, writer)
}

/// Writes the answers to lines, each before the next line is looked at.
fn answer_all<T: LineAnswerer, W: Write>(
    alloc: Global,
    answerer: &mut T,
    lines: &[Vec<u8>],
    writer: &mut W,
) -> Result<(), Stop>
    ensures ok { OnOk result (Appends (W.contents writer.old) (W.contents writer.new)
        (answered_texts T.answered_text T.after answerer.old (bodies lines.now))) }
    ensures after { OnOk result (answerer.new ≡ after_all T.after answerer.old (bodies lines.now)) }
    ensures err { OnErr result
        (AppendsFront (W.contents writer.old) (W.contents writer.new)
        (answered_texts T.answered_text T.after answerer.old (bodies lines.now))) }
{
    for line in lines {
        if let Err(stop) = answer_one(alloc, answerer, line, writer) {
            return Err(stop);
        }
    }
    Ok(())
}

/// Writes the answer to the last line, which no line feed ended, where it has a byte.
fn answer_last<T: LineAnswerer, W: Write>(
    alloc: Global,
    answerer: &mut T,
    rest: &[u8],
    writer: &mut W,
) -> Result<(), Stop>
    ensures ok { OnOk result (Appends (W.contents writer.old) (W.contents writer.new)
        (answered_texts T.answered_text T.after answerer.old (last_line rest.now))) }
    ensures after { OnOk result (answerer.new
        ≡ after_all T.after answerer.old (last_line rest.now)) }
    ensures err { OnErr result
        (AppendsFront (W.contents writer.old) (W.contents writer.new)
        (answered_texts T.answered_text T.after answerer.old (last_line rest.now))) }
{
    if rest.is_empty() {
        return Ok(());
    }
    answer_one(alloc, answerer, rest, writer)
}

fn write_end<T: LineAnswerer, W: Write>(
    alloc: Global,
    answerer: &T,
    writer: &mut W,
) -> Result<(), Stop>
    ensures ok { OnOk result (Appends (W.contents writer.old) (W.contents writer.new)
        (T.ending answerer.now)) }
    ensures err { OnErr result
        (AppendsFront (W.contents writer.old) (W.contents writer.new) (T.ending answerer.now)) }
{
    let text = match answerer.end(alloc) {
        Ok(text) => text,
        Err(_) => return Err(Stop::Memory),
    };
    write_all(&text, writer)
}

/// Writes the answers to the last line and at the end.
fn answer_end<T: LineAnswerer, W: Write>(
    alloc: Global,
    answerer: &mut T,
    rest: &[u8],
    writer: &mut W,
) -> Result<(), Stop>
    ensures ok { OnOk result (Appends (W.contents writer.old) (W.contents writer.new)
        (answered_texts T.answered_text T.after answerer.old (last_line rest.now)
        ++ T.ending (after_all T.after answerer.old (last_line rest.now)))) }
    ensures after { OnOk result (answerer.new
        ≡ after_all T.after answerer.old (last_line rest.now)) }
    ensures err { OnErr result (AppendsFront (W.contents writer.old) (W.contents writer.new)
        (answered_texts T.answered_text T.after answerer.old (last_line rest.now)
        ++ T.ending (after_all T.after answerer.old (last_line rest.now)))) }
{
    if let Err(stop) = answer_last(alloc, answerer, rest, writer) {
        return Err(stop);
    }
    write_end(alloc, answerer, writer)
}

/// Answers the text that a reader returns, read through this buffer.
fn answer_pieces<R: Read, T: LineAnswerer, W: Write>(
    alloc: Global,
    reader: &mut R,
    buffer: &mut [u8],
    answerer: &mut T,
    writer: &mut W,
) -> Result<(), Stop>
    requires { 0 < length buffer.old }
    ensures ok { OnOk result (IfSome (R.remaining reader.old)
        (λ input. Appends (W.contents writer.old) (W.contents writer.new)
        (answer T.answered_text T.after T.ending answerer.old input))) }
    ensures after { OnOk result
        (IfSome (R.remaining reader.old)
        (λ input. answerer.new ≡ after_all T.after answerer.old (all_lines input))) }
    ensures err { OnErr result
        (IfSome (R.remaining reader.old)
        (λ input. AppendsFront (W.contents writer.old) (W.contents writer.new)
        (answer T.answered_text T.after T.ending answerer.old input))) }
{
    first_lines_stay();
    let mut lines = LineReader::new(alloc);
    for _ in 0..u64::MAX {
        let count = match read_some(reader, buffer) {
            Ok(count) => count,
            Err(e) => return Err(Stop::Device(e)),
        };
        if count == 0 {
            return answer_end(alloc, answerer, &lines.into_rest(), writer);
        }
        let ended = match lines.feed(alloc, &buffer[..count]) {
            Ok(ended) => ended,
            Err(_) => return Err(Stop::Memory),
        };
        if let Err(stop) = answer_all(alloc, answerer, &ended, writer) {
            return Err(stop);
        }
        if !answerer.goes_on() {
            return answer_end(alloc, answerer, &[], writer);
        }
    }
    Err(Stop::Device(io::Error::from(ErrorKind::Other)))
}

fn new_buffer(alloc: Global) -> Result<Vec<u8>, AllocError>
    ensures { IfOk result (λ buffer. 0 < vec_len buffer) }
{
    vec![in alloc; 0u8; PIECE]
}

/// Answers the text that a reader returns, line by line: the answer to a line is written as soon as
/// the line has ended. A line feed ends a line; the last may lack it. Where the teller takes no
/// further line, nothing further is read.
pub fn answer_lines<R: Read, T: LineAnswerer, W: Write>(
    alloc: Global,
    reader: &mut R,
    answerer: &mut T,
    writer: &mut W,
) -> Result<(), Stop>
    // What is written is the answer to the text,
    ensures ok { OnOk result (IfSome (R.remaining reader.old)
        (λ input. Appends (W.contents writer.old) (W.contents writer.new)
        (answer T.answered_text T.after T.ending answerer.old input))) }
    ensures after { OnOk result
        (IfSome (R.remaining reader.old)
        (λ input. answerer.new ≡ after_all T.after answerer.old (all_lines input))) }
    // or a beginning of it, where memory, the reader or the writer fail.
    ensures err { OnErr result
        (IfSome (R.remaining reader.old)
        (λ input. AppendsFront (W.contents writer.old) (W.contents writer.new)
        (answer T.answered_text T.after T.ending answerer.old input))) }
{
    let mut buffer = match new_buffer(alloc) {
        Ok(buffer) => buffer,
        Err(_) => return Err(Stop::Memory),
    };
    answer_pieces(alloc, reader, &mut buffer, answerer, writer)
}
