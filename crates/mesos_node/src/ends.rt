//! The end of a command.

ghost use Rattle.std.specs.Prelude.{◌≡◌};
ghost use Rattle.std.specs.Process.{exit_status};
ghost use Rattle.mesos_node.specs.Statuses.{status_of_fault};

use std::fmt;
use std::process::ExitCode;

/// The work ended.
pub(crate) const ENDED: u8 = 0;

/// Its input was refused.
pub(crate) const REFUSED: u8 = 2;

/// Memory, the input or the output failed.
pub(crate) const FAILED: u8 = 3;

/// Prints on standard error why a command ended, and returns its status: 2 where its input is
/// refused, 3 where memory, a store or a device failed.
pub(crate) fn print_fault<F: fmt::Display + Drop>(
    rt: &HostRuntime,
    fault: &F,
    is_refusal: bool,
) -> ExitCode
    ensures { exit_status result ≡ status_of_fault is_refusal }
{
    let _ = eprintln!(rt; "{fault}");
    ExitCode::from(if is_refusal { REFUSED } else { FAILED })
}
