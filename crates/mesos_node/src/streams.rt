//! The commands that read one stream to its end and write another: `calls` and `replay`,
//! with what each prints on standard error, and its exit status.

ghost use Rattle.std.specs.Prelude.{◌≡◌, None, Some, IfSome, is_some, true};
ghost use Rattle.std.specs.Io.KnownBytes.{Appends};
ghost use Rattle.std.specs.Process.{exit_status};
ghost use Rattle.frame_record.specs.Writes.{AppendsFront};
ghost use Rattle.frame_record.specs.declared.fault.FrameFault.{FrameFault};
ghost use Rattle.replay_core.specs.Replays.{replay_fault, replay_text};
ghost use Rattle.mesos_node.specs.Statuses.{IsStatus};
ghost use Rattle.mesos_node.specs.Commands.{Answers, AnswersFront};

use crate::ends::print_fault;
use call_replies::calls;
use replay_core::replay;
use std::io::{Read, Write};
use std::process::ExitCode;

/// Answers the calls that a reader returns, and prints on standard error why it ended before the
/// input did, if so. The status is 0, or 2 where a frame is none (`F1 BadSize`, `F2 TooLong`,
/// `F3 Cut`), and 3 where memory, the reader or the writer failed (`F4`, `J10`, `M5`, `Z2`).
pub(crate) fn run_calls<R: Read, W: Write>(
    rt: &HostRuntime,
    reader: &mut R,
    writer: &mut W,
) -> ExitCode
    ensures status { IsStatus (exit_status result) }
    // At 0 the answer to the whole input is written,
    ensures ended { exit_status result ≡ 0
        → IfSome (R.remaining reader.old)
        (λ input. Answers input None (W.contents writer.old) (W.contents writer.new)) }
    // at 2 that to the records before a frame that is none,
    ensures refused { exit_status result ≡ 2
        → IfSome (R.remaining reader.old) (λ input. (fault : FrameFault)
        × Answers input (Some fault) (W.contents writer.old) (W.contents writer.new)) }
    // and at 3 a beginning of it.
    ensures failed { exit_status result ≡ 3
        → IfSome (R.remaining reader.old)
        (λ input. AnswersFront input (W.contents writer.old) (W.contents writer.new)) }
{
    match calls(rt.alloc(), reader, writer) {
        Ok(None) => ExitCode::SUCCESS,
        Ok(Some(fault)) => print_fault(rt, &fault, true),
        Err(stop) => print_fault(rt, &stop, false),
    }
}

/// Replays the steps that a reader returns, one in each line after the first, and prints on
/// standard error why it ended before the input did, if so. The status is 0, or 2 where a line is
/// no step or the first is no configuration (`X1 NotAStep`, `X2 BadCall`, `X3 BadConfig`), and 3
/// where memory, the reader or the writer failed (`C9 OutOfMemory`, `Z2 DeviceFault`).
pub(crate) fn run_replay<R: Read, W: Write>(
    rt: &HostRuntime,
    reader: &mut R,
    writer: &mut W,
) -> ExitCode
    ensures status { IsStatus (exit_status result) }
    // At 0 all lines are replayed, and the answers to them are written,
    ensures ended { exit_status result ≡ 0
        → IfSome (R.remaining reader.old) (λ input. (replay_fault input ≡ None)
        × Appends (W.contents writer.old) (W.contents writer.new) (replay_text input)) }
    // at 2 the answers to the lines before the one that is refused,
    ensures refused { exit_status result ≡ 2
        → IfSome (R.remaining reader.old) (λ input. (is_some (replay_fault input) ≡ true)
        × Appends (W.contents writer.old) (W.contents writer.new) (replay_text input)) }
    // and at 3 a beginning of them.
    ensures failed { exit_status result ≡ 3
        → IfSome (R.remaining reader.old)
        (λ input. AppendsFront (W.contents writer.old) (W.contents writer.new)
        (replay_text input)) }
{
    match replay(rt.alloc(), reader, writer) {
        Ok(None) => ExitCode::SUCCESS,
        Ok(Some(stop)) => print_fault(rt, &stop, true),
        Err(stop) => print_fault(rt, &stop, false),
    }
}
