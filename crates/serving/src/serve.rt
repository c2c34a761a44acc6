//! A cluster that runs until its connections have ended.

ghost use Rattle.std.specs.Fn.{FnReturnsAt};
ghost use Rattle.std.specs.Prelude.{◌≡◌, ◌==◌, ◌<◌, ◌-◌, ◌/◌, [], if◌then◌else◌, IfOk, Ok};

use crate::fault::ServingFault;
use crate::memory::MemoryLimit;
use crate::staff::{Entrance, Leaver, Pace, seated, start_all};
use desk_core::{KeptEntry, Running};
use desk_lock::{Desk, Office, OfficeFault, Pass, Passes, Recorded, SeatedHistory};
use http_door::NoGate;
use http_serve::{ConnectionLimits, Ending, HttpFault, Places, Seating, TcpArrivals, serve_all};
use keep_folder::RecordFile;
use std::alloc::Global;
use std::net::{Net, TcpListener, TcpStream};
use std::sync::ledger::Blank;
use std::sync::{Wait, ledger};
use std::thread;
use std::thread::{JoinHandle, Scope, Threads};
use std::time::Clock;

/// Collects a pass. Where memory is refused for it, the entries of its seat aren't accounted for.
fn hand_in<L: ledger::Ledger>(
    passes: &mut Passes<KeptEntry, L>,
    pass: Pass<KeptEntry, L>,
) -> Result<(), ServingFault> {
    match passes.push(pass) {
        Ok(()) => Ok(()),
        Err(_) => Err(ServingFault::Office(OfficeFault::OutOfMemory)),
    }
}

/// The first of two faults.
fn first_fault(
    one: Result<(), ServingFault>,
    other: Result<(), ServingFault>,
) -> Result<(), ServingFault> {
    match one {
        Ok(()) => other,
        Err(fault) => Err(fault),
    }
}

/// Collects the passes of connections that had a seat, and returns the first fault.
fn hand_in_all<D: Running, L: ledger::Ledger, R: Wait>(
    passes: &mut Passes<KeptEntry, L>,
    benches: Vec<Seating<'_, D, L, R>>,
) -> Result<(), ServingFault> {
    let mut handed = Ok(());
    for bench in benches {
        if let Some(pass) = bench.into_pass() {
            handed = first_fault(handed, hand_in(passes, pass));
        }
    }
    handed
}

/// Why no more connections were served, unless no more came.
fn why_ended(fault: Option<HttpFault>) -> Result<(), ServingFault> {
    match fault {
        Some(fault) => Err(ServingFault::Http(fault)),
        None => Ok(()),
    }
}

/// So many connections are served at once where no number is asked for.
const WORKERS: u32 = 64;

/// Of so many bodies over 64 KiB are read at once.
const BODIES: u64 = 8;

/// How many connections are served at once.
fn workers_of(asked: u32) -> u32
    ensures number { result ≡ (if asked == 0 then 64 else asked) }
    ensures some { 0 < result }
{
    if asked == 0 { WORKERS } else { asked }
}

/// How many of these may be streams: all but a quarter, where a number is asked for.
fn streams_of(asked: u32) -> u64
    ensures { result ≡ (if asked == 0 then 64 else asked - asked / 4) }
{
    if asked == 0 {
        return u64::from(WORKERS);
    }
    u64::from(asked.saturating_sub(asked / 4))
}

/// Serves the connections of a listener, each with a seat of its own,
/// until no more come and all have ended. The passes of their seats are collected.
fn serve_connections<
    D: Running + Send + Sync,
    L: ledger::Ledger + Send + Sync,
    R: Threads + Wait + Clock + Eprint + Sync,
>(
    rt: &R,
    alloc: Global,
    office: &Office<D, L>,
    entrance: Entrance<'_>,
    pace: Pace,
    passes: &mut Passes<KeptEntry, L>,
) -> Result<(), ServingFault> {
    let pass = seated(rt, alloc, office)?;
    let streams = Places::new(streams_of(pace.workers));
    let bodies = Places::new(BODIES);
    let limits = ConnectionLimits {
        connections: pace.connections,
        idle_seconds: pace.idle_seconds,
        streams: &streams,
        bodies: &bodies,
        keep_serving: pace.keep_serving,
    };
    let Entrance {
        listener,
        ending,
        ..
    } = entrance;
    let mut arrivals = TcpArrivals::new(rt, alloc, office, pass, listener, limits, ending);
    let workers = workers_of(pace.workers);
    let (benches, fault) = serve_all(rt, alloc, workers, &mut arrivals, &NoGate);
    let ended = why_ended(fault);
    let own = hand_in(passes, arrivals.into_pass());
    let handed = first_fault(own, hand_in_all(passes, benches));
    first_fault(ended, handed)
}

/// Waits for the threads to end, and collects their passes. It returns the first fault.
fn join_all<L: ledger::Ledger, R: Threads>(
    rt: &R,
    threads: Vec<JoinHandle<Leaver<L>>>,
    passes: &mut Passes<KeptEntry, L>,
) -> Result<(), ServingFault> {
    let mut ended = Ok(());
    for thread in threads {
        let Leaver { pass, fault } = thread.join(rt);
        let left = match fault {
            Some(fault) => Err(fault),
            None => Ok(()),
        };
        ended = first_fault(ended, first_fault(left, hand_in(passes, pass)));
    }
    ended
}

/// Runs a cluster in a scope of threads:
/// serves its connections while its agents and its master's time go on, and ends all of them then.
fn run<
    's,
    E,
    D: Running + Send + Sync + 's,
    L: ledger::Ledger + Send + Sync + 's,
    R: Net<Listener = TcpListener, Stream = TcpStream>
        + Threads
        + Wait
        + Clock
        + Eprint
        + Sync
        + 's,
>(
    scope: &Scope<'s, E>,
    rt: &'s R,
    alloc: Global,
    office: &'s Office<D, L>,
    files: Vec<RecordFile<'s>>,
    entrance: Entrance<'s>,
    pace: Pace,
) -> (Passes<KeptEntry, L>, Result<(), ServingFault>) {
    let mut passes = Passes::new(alloc);
    let mut threads = Vec::new(alloc);
    let started = start_all(
        scope,
        rt,
        alloc,
        office,
        files,
        entrance,
        pace,
        &mut threads,
    );
    let served = match started {
        Ok(()) => serve_connections(rt, alloc, office, entrance, pace, &mut passes),
        Err(fault) => Err(fault),
    };
    office.finish(rt);
    let ended = join_all(rt, threads, &mut passes);
    (passes, first_fault(ended, served))
}

/// An office over a cluster, in a scope of threads.
fn run_office<
    D: Running + Send + Sync,
    L: ledger::Ledger + Send + Sync,
    R: Net<Listener = TcpListener, Stream = TcpStream> + Threads + Wait + Clock + Eprint + Sync,
>(
    rt: &R,
    alloc: Global,
    office: &Office<D, L>,
    files: Vec<RecordFile<'_>>,
    entrance: Entrance<'_>,
    pace: Pace,
) -> (Passes<KeptEntry, L>, Result<(), ServingFault>) {
    thread::scope(thread::scope_env(), rt, |scope| {
        run(scope, rt, alloc, office, files, entrance, pace)
    })
}

/// Drops a desk. (Of a desk over a cluster, whose entries are references, the borrow checker can't
/// follow that in place.)
fn drop_desk<C: Recorded, L: ledger::Ledger>(desk: Desk<C, L>) {
    drop(desk);
}

/// What was closed, unless something else failed.
fn unless_failed<C: Recorded>(
    closed: Result<SeatedHistory<C>, ServingFault>,
    ended: Result<(), ServingFault>,
) -> Result<SeatedHistory<C>, ServingFault>
    ensures { IfOk result (λ history. closed ≡ Ok history) }
{
    match ended {
        Ok(()) => closed,
        Err(fault) => Err(fault),
    }
}

/// What an office recorded, where the passes of its seats account for them.
fn close<D: Running, L: ledger::Ledger>(
    office: Office<D, L>,
    passes: Passes<KeptEntry, L>,
) -> Result<SeatedHistory<D>, ServingFault>
    ensures { IfOk result (λ history. D.sound history.recorded) }
{
    match office.close(passes) {
        Ok(history) => Ok(history),
        Err(refused) => {
            let (desk, _passes, fault) = refused;
            drop_desk(desk);
            Err(ServingFault::Office(fault))
        }
    }
}

/// An office over a cluster that was just opened.
fn opened<D: Running, L: ledger::Ledger>(alloc: Global, cluster: D, blank: Blank) -> Office<D, L>
    requires opening { D.history cluster ≡ [] }
    requires name { blank.name ≡ L.name }
    requires parts { (blank.parts ≡ L.parts) × (blank.parts ≡ 4294967296) }
{
    let desk: Desk<D, L> = Desk::new(alloc, cluster, blank);
    Office::new(desk)
}

/// What `look` returns on what a desk recorded; the history is dropped then. (Of a desk over a
/// cluster, whose entries are references, the borrow checker can't follow that in place.)
pub fn read_recorded<C: Recorded, T, F: Fn(&C) -> T>(history: SeatedHistory<C>, look: F) -> T
    requires { F.IsAlwaysCallable look }
    ensures { FnReturnsAt F.Fn look history.recorded result }
{
    look(history.recorded())
}

/// Prints on standard error why a cluster isn't served any more, unless that was printed.
fn print_once<T, R: Eprint>(rt: &R, ending: &Ending, served: &Result<T, ServingFault>) {
    if let Err(fault) = served {
        if ending.begin() {
            let _ = eprintln!(rt; "{fault}");
        }
    }
}

/// Runs a cluster of agents whose records are kept in files, until so many connections as its pace
/// says have come and ended, and returns its whole history, with the seat of each entry. Each
/// connection has a seat, as has each agent and the master's time. Where an agent's record can't be
/// kept any more or where memory or a thread is refused, unless its pace is to keep serving, or where
/// it has as much memory as it may have, it ends too: the fault, which says why, is printed on
/// standard error at once, streams and connections that wait for their clients are ended, and what
/// is being answered is answered.
pub fn serve_cluster<
    D: Running + Send + Sync,
    L: ledger::Ledger + Send + Sync,
    R: Net<Listener = TcpListener, Stream = TcpStream> + Threads + Wait + Clock + Eprint + Sync,
>(
    rt: &R,
    alloc: Global,
    blank: Blank,
    cluster: D,
    files: Vec<RecordFile<'_>>,
    listener: &TcpListener,
    memory: MemoryLimit<'_>,
    pace: Pace,
) -> Result<SeatedHistory<D>, ServingFault>
    requires opening { D.history cluster ≡ [] }
    requires name { blank.name ≡ L.name }
    requires parts { (blank.parts ≡ L.parts) × (blank.parts ≡ 4294967296) }
    ensures { IfOk result (λ history. D.sound history.recorded) }
{
    let office: Office<D, L> = opened(alloc, cluster, blank);
    let ending = Ending::new();
    let entrance = Entrance {
        listener,
        memory,
        ending: &ending,
    };
    let (passes, ended) = run_office(rt, alloc, &office, files, entrance, pace);
    let closed = unless_failed(close(office, passes), ended);
    print_once(rt, &ending, &closed);
    closed
}
