//! What a TCP client is sent.

ghost use Rattle.std.specs.Prelude.{◌≡◌, ◌<◌, ◌≤◌, ◌+◌, IfNone, IfOk, IfSome, OnSome, length, ⊤};

use crate::timing::have_passed;
use http_door::Outlet;
use std::io;
use std::io::{ErrorKind, Write};
use std::net::TcpStream;
use std::time::{Clock, Duration, Instant};

/// How long a write of a socket waits before it is seen whether its text is late, in seconds.
const SLICE: u64 = 1;

/// A text that a client is sent, a response or a chunk of a stream, takes so many seconds in all at
/// most.
const TEXT_SECONDS: u64 = 30;

/// What a client is sent over TCP. No contract can say which bytes a socket takes:
/// only the writes that failed are counted. A write that took no byte has failed, and so has one
/// of a text that was begun 30 seconds ago, however slowly the client takes its bytes.
#[derive(Drop)]
pub struct TcpOutlet<'a, R: Clock> {
    rt: &'a R,
    stream: TcpStream,
    /// When the text was begun that is written.
    begun: Option<Instant>,
    faults: u64,
}

impl<'a, R: Clock> TcpOutlet<'a, R> {
    pub(crate) fn new(rt: &'a R, stream: TcpStream) -> io::Result<TcpOutlet<'a, R>>
        ensures { IfOk result (λ outlet. outlet.faults ≡ 0) }
    {
        stream.set_write_timeout(Some(Duration::from_secs(SLICE)))?;
        Ok(TcpOutlet {
            rt,
            stream,
            begun: None,
            faults: 0,
        })
    }
}

/// Whether a write may be tried again: it was interrupted, or its slice of time is over.
fn is_passing(error: &io::Error) -> bool {
    matches!(error.kind(), ErrorKind::Interrupted | ErrorKind::WouldBlock)
}

/// Writes once, at least one byte; a write that was interrupted, or for which the client takes
/// nothing, is tried again while the text isn't late. None is a write that failed.
fn write_in_time<R: Clock>(
    rt: &R,
    stream: &mut TcpStream,
    piece: &[u8],
    begun: Option<Instant>,
) -> Option<usize>
    ensures { IfSome result (λ n. (0 < n) × (n ≤ length piece.now)) }
{
    for _ in 0..u64::MAX {
        if have_passed(rt, begun, TEXT_SECONDS) {
            return None;
        }
        match stream.write(piece) {
            Ok(0) => return None,
            Ok(count) => return Some(count),
            Err(error) if is_passing(&error) => {}
            Err(_) => return None,
        }
    }
    None
}

impl<'a, R: Clock> Outlet for TcpOutlet<'a, R> {
    ghost writes = { λ _ _ _. ⊤ };

    ghost faults = { λ outlet. outlet.faults };

    /// As `Outlet::write` has it; the count of failures rises by one for each.
    fn write(&mut self, piece: &[u8]) -> Option<usize>
        requires { self.old.faults < u64.MAX }
        ensures within { IfSome result (λ n. (0 < n) × (n ≤ length piece.now)) }
        ensures bytes { IfSome result (λ _. ⊤) }
        ensures sound { OnSome result (self.new.faults ≡ self.old.faults) }
        ensures failed { IfNone result (⊤ × (self.old.faults < self.new.faults)) }
        ensures once { IfNone result (self.new.faults ≡ self.old.faults + 1) }
    {
        match write_in_time(self.rt, &mut self.stream, piece, self.begun) {
            Some(count) => Some(count),
            None => {
                self.faults += 1;
                None
            }
        }
    }

    fn begin_text(&mut self) {
        self.begun = Instant::now(self.rt).ok();
    }

    ghost writes_nothing = { λ _. tt };

    ghost writes_more = { λ _ _ _ _ _ _ _. tt };
}
