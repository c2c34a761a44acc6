//! One line.

ghost use Rattle.std.specs.Prelude.{◌≡◌, ◌++◌, IfOk, OnOk, string_bytes};
ghost use Rattle.step_text.specs.EntriesLines.{event_front, line, mail_front, number_front};

use names_core::StreamId;
use std::alloc::{AllocError, Global};

/// Adds the line of these two parts.
#[tactic(auto, unfolding(crate::specs::EntriesLines::line))]
pub(crate) fn push_line(text: &mut Vec<u8>, front: &str, body: &[u8]) -> Result<(), AllocError>
    ensures { OnOk result (text.new.items ≡ text.old.items ++ line front.now body.now) }
{
    text.extend_from_slice(front.as_bytes())?;
    text.extend_from_slice(body)?;
    text.push(b'\n')?;
    Ok(())
}

/// The beginning of the line of a verdict.
#[tactic(auto, unfolding(crate::specs::EntriesLines::number_front))]
pub(crate) fn number_front(alloc: Global, number: u64) -> Result<String, AllocError>
    ensures { IfOk result (λ text. string_bytes text ≡ number_front number) }
{
    format!(in alloc; "{number} ")
}

/// The beginning of the line of an event: this mark, and the stream's id.
#[tactic(auto, unfolding(crate::specs::EntriesLines::event_front))]
pub(crate) fn event_front(alloc: Global, mark: &str, stream: StreamId) -> Result<String, AllocError>
    ensures { IfOk result (λ text. string_bytes text ≡ event_front mark.now stream) }
{
    let Ok(id) = stream.to_text(alloc) else {
        return Err(AllocError);
    };
    format!(in alloc; "{mark} {id} ")
}

/// The beginning of the line of the mail with this number.
#[tactic(auto, unfolding(crate::specs::EntriesLines::mail_front))]
pub(crate) fn mail_front(alloc: Global, number: u64, receiver: &str) -> Result<String, AllocError>
    ensures { IfOk result (λ text. string_bytes text ≡ mail_front number receiver.now) }
{
    format!(in alloc; "# {number} {receiver} ")
}
