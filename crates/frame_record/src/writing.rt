//! Records as they are written.

ghost use Rattle.std.specs.Prelude.{◌≡◌, ◌≤◌, ◌<◌, ◌++◌, List, ℕ, length, IfOk, IfErr, IsErrOf, ◌⊎◌};
ghost use Rattle.frame_record.specs.Records.{State, Reads, BeginsWith, SameEnd, record_text, limit};

use crate::fault::FrameFault;
use crate::first::LIMIT;
use std::alloc::Global;

/// The record of these data: their length in decimal digits without a leading zero, a line feed,
/// and the data. `F2` for more data than the limit.
pub fn encode(alloc: Global, body: &[u8]) -> Result<Vec<u8>, FrameFault>
    ensures ok { IfOk result (λ v. v.items ≡ record_text body.now) }
    ensures within { IfOk result (λ v. length body.now ≤ limit) }
    ensures long { IsErrOf result FrameFault.TooLong → limit < length body.now }
    ensures err { IfErr result (λ e. (e ≡ FrameFault.TooLong) ⊎ (e ≡ FrameFault.OutOfMemory)) }
{
    if body.len() as u64 > LIMIT {
        return Err(FrameFault::TooLong);
    }
    let size = body.len().to_string(alloc)?;
    let mut text = Vec::from_slice(alloc, size.as_bytes())?;
    text.push(b'\n')?;
    text.extend_from_slice(body)?;
    Ok(text)
}

/// What is written is read again, whatever follows it.
pub fn written_is_read()
    ensures { (body rest : List ℕ) → length body ≤ limit
        → BeginsWith (record_text body ++ rest) body rest }
{}

/// A text has one reading, so it doesn't matter in which pieces it came.
pub fn one_reading()
    ensures { (text : List ℕ) (rs qs : List (List ℕ)) (s t : State) → Reads text rs s
        → Reads text qs t → (rs ≡ qs) × SameEnd s t }
{}
