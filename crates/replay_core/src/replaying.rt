//! The replay of a text.

ghost use Rattle.std.specs.Prelude.{◌≡◌, IfOk, IfSome, OnErr, OnOk};
ghost use Rattle.std.specs.Io.KnownBytes.{Appends};
ghost use Rattle.frame_record.specs.Writes.{AppendsFront};
ghost use Rattle.cluster_core.specs.Safety.{Safe};
ghost use Rattle.replay_core.specs.Replays.{beginning, replay_fault, replay_story, replay_text};

use crate::fault::{LineStop, ReplayStop};
use crate::replayer::Replayer;
use frame_record::{Stop, answer_lines};
use std::alloc::Global;
use std::io::{Read, Write};
use std::mem;

/// Replays a text with a replayer that has read none of it.
fn replay_with<R: Read, W: Write>(
    alloc: Global,
    reader: &mut R,
    replayer: &mut Replayer,
    writer: &mut W,
) -> Result<Option<LineStop>, ReplayStop>
    requires { replayer.old ≡ beginning }
    ensures text { OnOk result
        (IfSome (R.remaining reader.old)
        (λ input. Appends (W.contents writer.old) (W.contents writer.new) (replay_text input))) }
    ensures fault { IfOk result
        (λ fault. IfSome (R.remaining reader.old) (λ input. fault ≡ replay_fault input)) }
    ensures safe { IfOk result
        (λ _. IfSome (R.remaining reader.old) (λ input. IfSome (replay_story input) Safe)) }
    ensures err { OnErr result
        (IfSome (R.remaining reader.old)
        (λ input. AppendsFront (W.contents writer.old) (W.contents writer.new)
        (replay_text input))) }
{
    match answer_lines(alloc, reader, replayer, writer) {
        Ok(()) => {
            replayer.is_safe();
            Ok(replayer.fault())
        }
        Err(Stop::Memory) => Err(ReplayStop::Memory {
            line: replayer.lines().saturating_add(1),
        }),
        Err(Stop::Device(e)) => Err(ReplayStop::Device(e)),
    }
}

/// Replays the text that a reader returns: its first line says which agents there are, and each
/// other one is a step of their cluster, all of whose calls and mails can be delivered any number
/// of times. After each line it writes the answer to it, and at the end the agents, their tasks,
/// and the number of entries. It returns the line that ended it, if one did: `X1 NotAStep`,
/// `X2 BadCall`, or `X3 BadConfig`. The memory of the cluster isn't freed at the end: a replay is
/// to be the last work of its process.
pub fn replay<R: Read, W: Write>(
    alloc: Global,
    reader: &mut R,
    writer: &mut W,
) -> Result<Option<LineStop>, ReplayStop>
    // What is written is a function of what is read, and so is the line that ended it,
    ensures text { OnOk result
        (IfSome (R.remaining reader.old)
        (λ input. Appends (W.contents writer.old) (W.contents writer.new) (replay_text input))) }
    ensures fault { IfOk result
        (λ fault. IfSome (R.remaining reader.old) (λ input. fault ≡ replay_fault input)) }
    // and the cluster is safe at the end;
    ensures safe { IfOk result
        (λ _. IfSome (R.remaining reader.old) (λ input. IfSome (replay_story input) Safe)) }
    // or a beginning of it is written, where memory, the reader or the writer fail.
    ensures err { OnErr result
        (IfSome (R.remaining reader.old)
        (λ input. AppendsFront (W.contents writer.old) (W.contents writer.new)
        (replay_text input))) }
{
    let mut replayer = Replayer::new();
    let replayed = replay_with(alloc, reader, &mut replayer, writer);
    // With many tasks it takes a part of the whole time to free a cluster piece by piece, and the
    // process ends next.
    mem::forget(replayer);
    replayed
}
