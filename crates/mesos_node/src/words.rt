//! The end where the words of the command line name no action.

ghost use Rattle.std.specs.Prelude.{◌≡◌, IfOk};
ghost use Rattle.std.specs.Process.{exit_status};
ghost use Rattle.std.specs.IoError.{error_kind};
ghost use Rattle.clap.specs.Words.{kind_of};
ghost use Rattle.mesos_node.specs.Statuses.{status_of_kind, status_of_unread};

use crate::ends::{ENDED, FAILED, REFUSED, print_fault};
use clap::error::ErrorKind;
use std::io;
use std::process::ExitCode;

/// The status where the words name no action: they ask for help,
/// memory is refused, or they are wrong.
fn status_of_kind(kind: ErrorKind) -> u8
    ensures { result ≡ status_of_kind kind }
{
    match kind {
        ErrorKind::DisplayHelp | ErrorKind::DisplayVersion => ENDED,
        ErrorKind::OutOfMemory => FAILED,
        _ => REFUSED,
    }
}

/// Prints why the words of the command line name no action, on standard error, or the help that
/// they ask for, on standard output. The status is 0 for help, 3 where memory was refused, and else
/// 2; what `clap` can't write is its `io::Error`.
pub(crate) fn print_word_fault(rt: &HostRuntime, fault: &clap::Error) -> io::Result<ExitCode>
    ensures { IfOk result (λ code. exit_status code ≡ status_of_kind (kind_of fault.now)) }
{
    fault.print(rt)?;
    Ok(ExitCode::from(status_of_kind(fault.kind())))
}

/// Prints on standard error why the words of the command line can't be had: one isn't UTF-8, with
/// status 2, or memory is refused, with status 3.
pub(crate) fn print_unread(rt: &HostRuntime, fault: &io::Error) -> ExitCode
    ensures { exit_status result ≡ status_of_unread (error_kind fault.now) }
{
    match fault.kind() {
        io::ErrorKind::InvalidData => {
            let _ = eprintln!(rt; "error: a word of the command line isn't UTF-8");
            ExitCode::from(REFUSED)
        }
        _ => print_fault(rt, fault, false),
    }
}
