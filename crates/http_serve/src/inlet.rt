//! What a TCP client sends.

ghost use Rattle.std.specs.Prelude.{◌≡◌, ◌<◌, ◌≤◌, ◌+◌, true, Some, IfNone, IfOk, IfSome, OnSome, length, ⊤};

use crate::ending::Ending;
use crate::limits::ConnectionLimits;
use crate::places::Place;
use crate::timing::have_passed;
use frame_record::read_some;
use http_door::{Inlet, Section};
use std::net::TcpStream;
use std::time::{Clock, Duration, Instant};
use std::{io, thread};

/// How long a read of a socket waits before it is seen whether to wait on, in seconds.
const SLICE: u64 = 1;

/// So many times the seconds that may pass without a byte, a head or a large body takes at most.
const IN_ALL: u64 = 10;

/// So many bytes of a body are read without a place, 64 KiB.
const SMALL: usize = 65_536;

/// How long is waited before it is seen again whether a place is left, in milliseconds.
const PAUSE: u64 = 50;

/// So many pauses are a second.
const PAUSES: u64 = 20;

/// What a client sends over TCP. No contract can say which bytes a socket returns: of what was
/// read only the failures are counted, and a read without bytes is the end of the input. The input
/// is at its end too where no byte came for too long, where a head or a large body takes too long,
/// where no place for a large body is left for too long, and where the server ends.
#[derive(Drop)]
pub struct TcpInlet<'a, R: Clock> {
    rt: &'a R,
    stream: TcpStream,
    limits: ConnectionLimits<'a>,
    ending: &'a Ending,
    /// What is read, and how many bytes of it were.
    section: Section,
    count: usize,
    /// When the first byte of a head was read, or a large body got its place.
    begun: Option<Instant>,
    /// The place of a body of which over 64 KiB are read.
    place: Option<Place<'a>>,
    ended: bool,
    faults: u64,
}

/// So often something is tried that may take so many seconds, where it is tried so often a second;
/// with 0 seconds it is tried for ever.
fn tries_in(seconds: u64, a_second: u64) -> u64 {
    if seconds == 0 {
        return u64::MAX;
    }
    seconds.saturating_mul(a_second)
}

/// Whether a section that was begun then has taken ten times as many seconds as may pass without a
/// byte; with 0 it hasn't.
fn is_late<R: Clock>(rt: &R, begun: Option<Instant>, idle_seconds: u64) -> bool {
    idle_seconds > 0 && have_passed(rt, begun, idle_seconds.saturating_mul(IN_ALL))
}

/// Reads once, and waits for so many seconds at most, with 0 for ever. No byte is the end of the
/// input; so it is where the time of the read or of its section is up, and where the server ends.
fn read_in_time<R: Clock>(
    rt: &R,
    stream: &mut TcpStream,
    piece: &mut [u8],
    idle_seconds: u64,
    begun: Option<Instant>,
    ending: &Ending,
) -> io::Result<usize>
    ensures { IfOk result (λ n. n ≤ length piece.new) }
{
    for _ in 0..tries_in(idle_seconds, SLICE) {
        if is_late(rt, begun, idle_seconds) {
            return Ok(0);
        }
        match read_some(stream, piece) {
            Ok(count) => return Ok(count),
            Err(error) if error.kind() != io::ErrorKind::WouldBlock => return Err(error),
            Err(_) if ending.has_begun() => return Ok(0),
            Err(_) => {}
        }
    }
    Ok(0)
}

/// Waits for a place for so many seconds at most, with 0 for ever. There is none where the time is
/// up, and where the server ends.
fn place_in_time<'a, R: Clock>(
    rt: &R,
    limits: ConnectionLimits<'a>,
    ending: &Ending,
) -> Option<Place<'a>> {
    for _ in 0..tries_in(limits.idle_seconds, PAUSES) {
        if let Some(place) = limits.bodies.take() {
            return Some(place);
        }
        if ending.has_begun() {
            return None;
        }
        thread::sleep(rt, Duration::from_millis(PAUSE));
    }
    None
}

impl<'a, R: Clock> TcpInlet<'a, R> {
    pub(crate) fn new(
        rt: &'a R,
        stream: TcpStream,
        limits: ConnectionLimits<'a>,
        ending: &'a Ending,
    ) -> io::Result<TcpInlet<'a, R>>
        ensures { IfOk result (λ inlet. inlet.faults ≡ 0) }
    {
        stream.set_read_timeout(Some(Duration::from_secs(SLICE)))?;
        Ok(TcpInlet {
            rt,
            stream,
            limits,
            ending,
            section: Section::Answer,
            count: 0,
            begun: None,
            place: None,
            ended: false,
            faults: 0,
        })
    }

    /// So many more bytes of the section were read. A head is begun with its first one.
    fn count_in(&mut self, count: usize)
        ensures sound { self.new.faults ≡ self.old.faults }
        ensures ended { self.new.ended ≡ self.old.ended }
    {
        if self.section == Section::Head && self.count == 0 && count > 0 {
            self.begun = Instant::now(self.rt).ok();
        }
        self.count = self.count.saturating_add(count);
    }

    /// Whether more may be read: of a body of which 64 KiB were read only with a place.
    fn may_read(&mut self) -> bool
        ensures { self.new.faults ≡ self.old.faults }
    {
        if self.section != Section::Body || self.count < SMALL || self.place.is_some() {
            return true;
        }
        self.place = place_in_time(self.rt, self.limits, self.ending);
        self.begun = Instant::now(self.rt).ok();
        self.place.is_some()
    }
}

impl<'a, R: Clock> Inlet for TcpInlet<'a, R> {
    ghost reads = { λ _ _ _. ⊤ };

    ghost ended = { λ inlet. inlet.ended ≡ true };

    ghost faults = { λ inlet. inlet.faults };

    /// As `Inlet::read` has it; the count of failures rises by one for each.
    fn read(&mut self, piece: &mut [u8]) -> Option<usize>
        requires { self.old.faults < u64.MAX }
        ensures within { IfSome result (λ n. n ≤ length piece.new) }
        ensures bytes { IfSome result (λ _. ⊤) }
        ensures end { result ≡ Some 0 → self.new.ended ≡ true }
        ensures sound { OnSome result (self.new.faults ≡ self.old.faults) }
        ensures failed { IfNone result (⊤ × (self.old.faults < self.new.faults)) }
        ensures once { IfNone result (self.new.faults ≡ self.old.faults + 1) }
    {
        if !self.may_read() {
            self.ended = true;
            return Some(0);
        }
        let (idle_seconds, begun) = (self.limits.idle_seconds, self.begun);
        match read_in_time(
            self.rt,
            &mut self.stream,
            piece,
            idle_seconds,
            begun,
            self.ending,
        ) {
            Ok(count) => {
                self.count_in(count);
                self.ended = count == 0;
                Some(count)
            }
            Err(_) => {
                self.faults += 1;
                None
            }
        }
    }

    fn begin(&mut self, section: Section, there: usize) {
        self.section = section;
        self.count = 0;
        self.begun = None;
        self.place = None;
        self.count_in(there);
    }

    ghost reads_nothing = { λ _. tt };

    ghost reads_more = { λ _ _ _ _ _ _ _. tt };
}
