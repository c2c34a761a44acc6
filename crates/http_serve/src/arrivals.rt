//! The connections of a TCP listener.

ghost use Rattle.std.specs.Prelude.{◌≡◌, ◌<◌, false, IfNone, IfOk, IfSome, IsTrue, OnSome};
ghost use Rattle.desk_lock.specs.declared.office.Waited.TheVariants.{Finished};
ghost use Rattle.http_serve.specs.Arrivals.{HasEnded, IsFinished, most_of, with_failure, with_taken};
ghost use Rattle.http_serve.specs.Seated.{IsSeated};

use crate::bench::SeatBench;
use crate::ending::Ending;
use crate::fault::bench_fault;
use crate::inlet::TcpInlet;
use crate::limits::ConnectionLimits;
use crate::outlet::TcpOutlet;
use crate::seating::Seating;
use crate::timing::have_passed;
use crate::workers::{Arrivals, HttpFault};
use desk_core::{Awaited, ClusterFault, KeptEntry, Running};
use desk_lock::{Office, Pass, Waited};
use std::alloc::Global;
use std::marker::Model;
use std::net::TcpListener;
use std::sync::{Wait, ledger};
use std::time::{Clock, Duration, Instant};
use std::{io, thread};

/// How long is waited after a connection that failed or couldn't be served, in milliseconds.
const PAUSE: u64 = 50;

/// How long it isn't told again that one couldn't be served, in seconds.
const SILENCE: u64 = 60;

/// After so many connections in a row that failed it is told again, which is about a minute.
const TELLS_AGAIN: u64 = 1_200;

/// Waits for the next connection. What is written is sent at once.
fn accept<'a, R: Clock>(
    rt: &'a R,
    listener: &TcpListener,
    limits: ConnectionLimits<'a>,
    ending: &'a Ending,
) -> io::Result<(TcpInlet<'a, R>, TcpOutlet<'a, R>)>
    ensures { IfOk result (λ ends. (ends.0.faults ≡ 0) × (ends.1.faults ≡ 0)) }
{
    let (stream, _) = listener.accept()?;
    stream.set_nodelay(true)?;
    let other = stream.try_clone()?;
    let inlet = TcpInlet::new(rt, stream, limits, ending)?;
    Ok((inlet, TcpOutlet::new(rt, other)?))
}

/// The connections of a listener, each with a seat of an office over a cluster, which is opened for
/// it. Where the office refuses a seat (O3, O5), the connection's calls are refused so. A connection
/// that fails before it is taken, as where the system lacks descriptors, is told on standard error,
/// once a minute while they fail in a row, and the next is waited for. After 2^64 - 1 connections
/// there are no more.
#[derive(Drop)]
pub struct TcpArrivals<'a, D: Running, L: ledger::Ledger, R: Wait + Clock + Eprint> {
    rt: &'a R,
    alloc: Global,
    office: &'a Office<D, L>,
    /// The seat by which is read whether the office is finished.
    pass: Pass<KeptEntry, L>,
    listener: &'a TcpListener,
    limits: ConnectionLimits<'a>,
    ending: &'a Ending,
    /// So many connections are taken at most.
    most: u64,
    taken: u64,
    /// How many connections failed since the last that was taken.
    failures: u64,
    /// When it was told last that memory or a thread was refused for one.
    told: Option<Instant>,
}

impl<'a, D: Running, L: ledger::Ledger, R: Wait + Clock + Eprint> Model
    for TcpArrivals<'a, D, L, R> {
    ghost use Rattle.std.specs.Prelude.{◌<◌, ◌≤◌};
    ghost use Rattle.http_serve.specs.Arrivals.{ArrivalsState};

    ghost Value = { ArrivalsState };

    ghost view = { λ a. record {
      pass = a.pass;
      most = a.most;
      taken = a.taken;
      failures = a.failures;
    } };

    ghost invariant = { λ a. (a.taken ≤ a.most) × (a.most < 18446744073709551616) };
}

/// Whether a look ended since the office is finished.
fn is_end(waited: Waited<()>) -> bool
    ensures { IsTrue result → waited ≡ Finished }
{
    matches!(waited, Waited::Finished)
}

/// How many connections are taken at most, where so many are asked for.
fn most_of(connections: u64) -> u64
    ensures { result ≡ most_of connections }
{
    if connections == 0 {
        return u64::MAX;
    }
    connections
}

impl<'a, D: Running, L: ledger::Ledger, R: Wait + Clock + Eprint> TcpArrivals<'a, D, L, R> {
    /// The connections of a listener, within these limits.
    /// The pass is of a seat of the office that is not used otherwise.
    pub fn new(
        rt: &'a R,
        alloc: Global,
        office: &'a Office<D, L>,
        pass: Pass<KeptEntry, L>,
        listener: &'a TcpListener,
        limits: ConnectionLimits<'a>,
        ending: &'a Ending,
    ) -> TcpArrivals<'a, D, L, R>
        ensures { result ≡ record {
          pass = pass;
          most = most_of limits.entry.connections;
          taken = 0;
          failures = 0;
        } }
    {
        TcpArrivals {
            rt,
            alloc,
            office,
            pass,
            listener,
            limits,
            ending,
            most: most_of(limits.connections),
            taken: 0,
            failures: 0,
            told: None,
        }
    }

    /// The pass of its seat, for the office's close.
    pub fn into_pass(self) -> Pass<KeptEntry, L>
        ensures { result ≡ self.entry.pass }
    {
        self.pass
    }

    /// Whether the office is finished; a look at it finds something at once otherwise.
    fn is_office_finished(&self) -> bool
        ensures { IsTrue result → IsFinished D.history D.sound }
    {
        let found = self.office.wait_for(
            self.rt,
            &self.pass,
            Awaited::time(),
            Duration::ZERO,
            |_cluster: &D| -> Result<Option<()>, ClusterFault> { Ok(Some(())) },
        );
        match found {
            Ok(waited) => is_end(waited),
            Err(_) => false,
        }
    }

    /// Whether there are no more connections.
    fn has_ended(&self) -> bool
        ensures ended { IsTrue result → HasEnded D.history D.sound self.now }
        ensures fewer { result ≡ false → self.now.taken < self.now.most }
    {
        self.taken >= self.most || self.is_office_finished()
    }

    /// Tells that a connection failed, where it is the first in a row, or the last was told long
    /// ago.
    fn tell(&self, error: &io::Error) {
        if self.failures % TELLS_AGAIN == 0 {
            let _ = eprintln!(self.rt; "Z2 DeviceFault: a connection can't be taken: {error}");
        }
    }

    /// Waits for the next connection. Where it fails there is none; since the next would fail at
    /// once where the system lacks descriptors or memory, it waits for 50 milliseconds then.
    fn take(&mut self) -> Option<(TcpInlet<'a, R>, TcpOutlet<'a, R>)>
        requires { self.old.taken < self.old.most }
        ensures countable { IfSome result
            (λ ends. (ends.0.faults ≡ 0) × (ends.1.faults ≡ 0)) }
        ensures taken { OnSome result (self.new ≡ with_taken self.old) }
        ensures failed { IfNone result (self.new ≡ with_failure self.old) }
    {
        match accept(self.rt, self.listener, self.limits, self.ending) {
            Ok(ends) => {
                self.failures = 0;
                self.taken += 1;
                Some(ends)
            }
            Err(error) => {
                self.tell(&error);
                self.failures = self.failures.saturating_add(1);
                thread::sleep(self.rt, Duration::from_millis(PAUSE));
                None
            }
        }
    }

    /// Tells that a connection couldn't be served, unless that was told within a minute.
    fn tell_refusal(&mut self, fault: HttpFault)
        ensures { self.new ≡ self.old }
    {
        if self.told.is_none() || have_passed(self.rt, self.told, SILENCE) {
            let _ = eprintln!(self.rt; "{fault}: a connection isn't served");
            self.told = Instant::now(self.rt).ok();
        }
    }

    /// What a connection gets for a bench.
    fn open_seating(&self) -> Seating<'a, D, L, R>
        ensures { IsSeated D.history D.sound result }
    {
        match self.office.open_seat(self.rt, self.alloc) {
            Ok(pass) => {
                let (rt, streams) = (self.rt, self.limits.streams);
                Seating::Seat(SeatBench::new(rt, self.alloc, self.office, pass, streams))
            }
            Err(fault) => Seating::Refusing(bench_fault(fault)),
        }
    }
}

impl<
    'a,
    D: Running + Send + Sync,
    L: ledger::Ledger + Send + Sync,
    R: Wait + Clock + Eprint + Sync,
> Arrivals for TcpArrivals<'a, D, L, R> {
    type In = TcpInlet<'a, R>;

    type Out = TcpOutlet<'a, R>;

    type Seat = Seating<'a, D, L, R>;

    ghost taken = { λ arrivals. arrivals.taken };

    ghost is_seat = { IsSeated D.history D.sound };

    ghost ended = { HasEnded D.history D.sound };

    fn next(&mut self) -> Option<(TcpInlet<'a, R>, TcpOutlet<'a, R>, Seating<'a, D, L, R>)> {
        let rt = self.rt;
        for _ in rt.forever() {
            if self.has_ended() {
                return None;
            }
            if let Some((inlet, outlet)) = self.take() {
                return Some((inlet, outlet, self.open_seating()));
            }
        }
        unreachable!()
    }
    /// Where the server is to keep serving, and isn't at its end, a fault is told on standard error,
    /// once a minute; and since memory and threads are lacking, it waits for 50 milliseconds then.
    fn bears(&mut self, fault: HttpFault) -> bool {
        if !self.limits.keep_serving || self.is_office_finished() {
            return false;
        }
        self.tell_refusal(fault);
        thread::sleep(self.rt, Duration::from_millis(PAUSE));
        true
    }

    /// Prints the fault on standard error, and ends the streams, and the connections that wait for
    /// their clients.
    fn give_up(&mut self, fault: HttpFault) {
        if self.ending.begin() {
            let _ = eprintln!(self.rt; "{fault}");
        }
        self.office.finish(self.rt);
    }
}
