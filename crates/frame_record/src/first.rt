//! The size line at the beginning of a record.

ghost use Rattle.std.specs.Prelude.{true, ◌≡◌, ◌≤◌, ◌<◌, ◌∷◌, [], length, take_while, IfOk, IfErr};
ghost use Rattle.std.specs.Char.{is_ascii_digit};
ghost use Rattle.std.specs.Str.{all_ascii_digits};
ghost use Rattle.std.specs.Str.Parse.{digits_value};
ghost use Rattle.frame_record.specs.Records.{IsSize, judged, faulty};
ghost use Rattle.frame_record.specs.Firsts.{IsOpenLine, TakesLine};

use crate::fault::FrameFault;
use std::alloc::AllocError;

/// The most data bytes of a record.
pub const LIMIT: u64 = 1_048_576;

/// What a size line takes of a piece.
#[derive(Clone, Copy, PartialEq, Eq)]
pub enum Line {
    /// All of it belongs to the line, which may go on.
    Partial,
    /// So many of its bytes end the line, which says this size.
    Whole { taken: usize, size: usize },
    /// So many of its bytes make the line a fault.
    Faulty { taken: usize, fault: FrameFault },
}

/// How many digits the text begins with.
fn count_digits(text: &[u8]) -> usize
    ensures { result ≡ length (take_while is_ascii_digit text.now) }
{
    text.iter().take_while(|b| b.is_ascii_digit()).count()
}

/// The number that at most twenty digits write.
fn value_of(digits: &[u8]) -> u128
    requires short { length digits.now ≤ 20 }
    requires digits_only { all_ascii_digits digits.now ≡ true }
    ensures { result ≡ digits_value 10 digits.now }
{
    let mut value: u128 = 0;
    for b in digits {
        value = value * 10 + u128::from(*b - b'0');
    }
    value
}

/// The size that a line says, by its digits and the byte after them. `F1` for no digits, another
/// byte than a line feed, or a number over 2^64 - 1; `F2` for a size over the limit.
fn size_of(digits: &[u8], stop: u8) -> Result<usize, FrameFault>
    requires { IsOpenLine digits.now }
    ensures size { IfOk result (λ size. IsSize digits.now size) }
    ensures stop { IfOk result (λ size. stop ≡ 10) }
    ensures err { IfErr result (λ fault. judged digits.now (stop ∷ []) ≡ faulty fault) }
{
    if stop != b'\n' || digits.is_empty() {
        return Err(FrameFault::BadSize);
    }
    let size = value_of(digits);
    if size >= 1 << 64 {
        return Err(FrameFault::BadSize);
    }
    if size > u128::from(LIMIT) {
        return Err(FrameFault::TooLong);
    }
    Ok(size as usize)
}

/// Takes the next bytes of a size line, up to its end or the byte that makes it a fault: `F1` and
/// `F2` as `size_of` says, and `F1` for a twenty-first digit.
fn extend_line(line: &mut Vec<u8>, bytes: &[u8]) -> Result<Line, AllocError>
    requires { IsOpenLine line.old.items }
    ensures { IfOk result (λ taken. TakesLine line.old.items bytes.now line.new.items taken) }
{
    let more = count_digits(bytes);
    let count = line.len() + more;
    if count > 20 {
        let taken = 21 - line.len();
        line.extend_from_slice(&bytes[..taken])?;
        return Ok(Line::Faulty {
            taken,
            fault: FrameFault::BadSize,
        });
    }
    let (digits, after) = bytes.split_at(more);
    line.extend_from_slice(digits)?;
    let [stop, ..] = after else {
        return Ok(Line::Partial);
    };
    let judged = size_of(line, *stop);
    line.push(*stop)?;
    let taken = more + 1;
    match judged {
        Ok(size) => Ok(Line::Whole { taken, size }),
        Err(fault) => Ok(Line::Faulty { taken, fault }),
    }
}

/// Takes the next bytes of a size line, as `extend_line` says; it looks at no more than 21 of them.
pub fn take_line(line: &mut Vec<u8>, piece: &[u8]) -> Result<Line, AllocError>
    requires { IsOpenLine line.old.items }
    ensures { IfOk result (λ taken. TakesLine line.old.items piece.now line.new.items taken) }
{
    let bytes = &piece[..piece.len().min(21)];
    extend_line(line, bytes)
}
