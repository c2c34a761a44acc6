//! Why no more connections are served.

ghost use Rattle.std.specs.Prelude.{◌≡◌, ◌≤◌};
ghost use Rattle.http_serve.specs.Faults.{taken_before};

use std::alloc::AllocError;
use std::thread::SpawnError;
use thiserror::Error;

/// Why the serving of connections ends before they do.
#[derive(Clone, Copy, Debug, Drop, PartialEq, Eq, Error)]
pub enum HttpFault {
    /// Memory ran out.
    #[error("H8 OutOfMemory")]
    OutOfMemory,
    /// A worker couldn't be started.
    #[error("H9 NoThread")]
    NoThread,
}

/// Memory was refused.
pub(crate) fn memory_refused(_refused: AllocError) -> HttpFault
    ensures { result ≡ HttpFault.OutOfMemory }
{
    HttpFault::OutOfMemory
}

/// A thread was refused.
pub(crate) fn thread_refused<F: Drop>(_refused: SpawnError<F>) -> HttpFault
    ensures { result ≡ HttpFault.NoThread }
{
    HttpFault::NoThread
}

/// How many connections were taken since the last that got a worker.
pub(crate) fn taken_before(fault: HttpFault) -> usize
    ensures number { result ≡ taken_before fault }
    ensures few { result ≤ 1 }
{
    match fault {
        HttpFault::OutOfMemory => 0,
        HttpFault::NoThread => 1,
    }
}
