//! The threads of a cluster's agents and of its master's time.

ghost use Rattle.std.specs.Prelude.{◌≡◌, [], None, true, if◌then◌else◌, IfOk};
ghost use Rattle.desk_agents.specs.declared.fault.CabinetFailures.TheVariants.{Borne, Fatal};

use crate::fault::ServingFault;
use crate::memory::{MemoryLimit, keep_within};
use desk_agents::{ActivityFault, CabinetFailures, Stopwatch, activity, decliner, ticker};
use desk_core::{KeptEntry, Running};
use desk_lock::{Office, Pass};
use http_serve::{Ending, HttpFault};
use keep_folder::{FileCabinet, RecordFile, TellingCabinet};
use keep_store::KeepFault;
use names_core::AgentName;
use quantity::Resources;
use std::alloc::Global;
use std::net::{Net, TcpListener, TcpStream};
use std::sync::{Wait, ledger};
use std::thread::{JoinHandle, Scope, Threads};
use std::time::Clock;

/// How fast a cluster runs.
#[derive(Clone, Copy, Drop)]
pub struct Pace {
    /// So many seconds lie between two rounds of offers: 1 or more,
    /// since at 0 rounds follow without a pause.
    pub interval: u64,
    /// An offer that was left unanswered for so many seconds, any number, is declined for as many;
    /// with 0 none is.
    pub offer_seconds: u32,
    /// So many seconds a task runs, any number; with 0 until it is killed.
    pub task_seconds: u64,
    /// So many connections are taken, any number; with 0 there is no limit.
    pub connections: u64,
    /// After so many seconds without a byte a connection is at its end, and after ten times as many
    /// in one head or large body; with 0 never.
    pub idle_seconds: u64,
    /// So many connections are served at once, and a quarter of them are kept for those that are no
    /// streams; with 0 it is 64, and none is kept.
    pub workers: u32,
    /// Whether the server goes on where memory or a thread is refused for a connection, or where an
    /// agent's store fails.
    pub keep_serving: bool,
}

/// Where a server takes its connections, how much memory it may have, and whether it ends before
/// its connections do.
#[derive(Clone, Copy, Drop)]
pub(crate) struct Entrance<'a> {
    pub listener: &'a TcpListener,
    pub memory: MemoryLimit<'a>,
    pub ending: &'a Ending,
}

impl<'a> Entrance<'a> {
    /// Has the server end, and prints why on standard error, unless it ends already. Who waits for
    /// a connection gets one, and sees it then.
    pub(crate) fn close<R: Net<Listener = TcpListener, Stream = TcpStream> + Eprint>(
        &self,
        rt: &R,
        fault: &ServingFault,
    ) {
        if !self.ending.begin() {
            return;
        }
        let _ = eprintln!(rt; "{fault}");
        if let Ok(address) = self.listener.local_addr() {
            let _ = TcpStream::connect(rt, address);
        }
    }
}

/// What a thread leaves: its pass, and why an agent's activity ended.
#[derive(Drop)]
pub(crate) struct Leaver<L: ledger::Ledger> {
    pub pass: Pass<KeptEntry, L>,
    pub fault: Option<ServingFault>,
}

/// What it is to an agent's activity that its store can't be opened again.
fn failures_under(pace: Pace) -> CabinetFailures
    ensures { result ≡ (if pace.keep_serving then Borne else Fatal) }
{
    if pace.keep_serving {
        CabinetFailures::Borne
    } else {
        CabinetFailures::Fatal
    }
}

/// An agent's activity over its store. That its record can't be saved, and that it is saved again,
/// is told on standard error.
fn keep_agent<'a, D: Running, L: ledger::Ledger, R: Wait + Clock + Eprint>(
    rt: &'a R,
    alloc: Global,
    office: &Office<D, L>,
    pass: Pass<KeptEntry, L>,
    agent: &'a AgentName,
    total: &Resources,
    cabinet: FileCabinet<'a>,
    pace: Pace,
) -> (Pass<KeptEntry, L>, Option<ActivityFault<KeepFault>>)
    requires { pass.receipts ≡ [] }
{
    let mut cabinet = TellingCabinet::new(agent, cabinet, pace.keep_serving);
    activity(
        rt,
        alloc,
        office,
        pass,
        agent,
        &mut cabinet,
        failures_under(pace),
        pace.task_seconds,
        total,
    )
}

/// An agent's activity, which holds its store until it ends. A fault that ends it is told on standard
/// error, and ends the server unless that is to keep serving.
fn keep_going<
    D: Running,
    L: ledger::Ledger,
    R: Net<Listener = TcpListener, Stream = TcpStream> + Wait + Clock + Eprint,
>(
    rt: &R,
    alloc: Global,
    office: &Office<D, L>,
    pass: Pass<KeptEntry, L>,
    file: RecordFile<'_>,
    entrance: Entrance<'_>,
    pace: Pace,
) -> Leaver<L>
    requires { pass.receipts ≡ [] }
    ensures { pace.keep_serving ≡ true → result.fault ≡ None }
{
    let (agent, total, cabinet) = file.into_cabinet();
    let (pass, fault) = keep_agent(rt, alloc, office, pass, &agent, &total, cabinet, pace);
    let Some(fault) = fault else {
        return Leaver { pass, fault: None };
    };
    let fault = ServingFault::Agent { agent, fault };
    if pace.keep_serving {
        let _ = eprintln!(rt; "{fault}, which is down from now on");
        return Leaver { pass, fault: None };
    }
    entrance.close(rt, &fault);
    Leaver {
        pass,
        fault: Some(fault),
    }
}

/// The master's time.
fn keep_time<D: Running, L: ledger::Ledger, R: Wait + Clock>(
    rt: &R,
    alloc: Global,
    office: &Office<D, L>,
    pass: Pass<KeptEntry, L>,
    interval: u64,
) -> Leaver<L> {
    let mut seconds = Stopwatch::new(rt);
    Leaver {
        pass: ticker(rt, alloc, office, pass, &mut seconds, interval),
        fault: None,
    }
}

/// The answers to offers that frameworks leave unanswered.
fn keep_declining<D: Running, L: ledger::Ledger, R: Wait + Clock>(
    rt: &R,
    alloc: Global,
    office: &Office<D, L>,
    pass: Pass<KeptEntry, L>,
    offer_seconds: u32,
) -> Leaver<L> {
    let mut clock = Stopwatch::new(rt);
    Leaver {
        pass: decliner(rt, alloc, office, pass, &mut clock, offer_seconds),
        fault: None,
    }
}

/// A thread, unless it was refused.
fn started<T: Drop, E: Drop>(thread: Result<T, E>) -> Result<T, ServingFault> {
    match thread {
        Ok(thread) => Ok(thread),
        Err(_) => Err(ServingFault::Http(HttpFault::NoThread)),
    }
}

/// A seat in an office.
pub(crate) fn seated<D: Running, L: ledger::Ledger, R: Wait>(
    rt: &R,
    alloc: Global,
    office: &Office<D, L>,
) -> Result<Pass<KeptEntry, L>, ServingFault>
    ensures { IfOk result (λ pass. pass.receipts ≡ []) }
{
    match office.open_seat(rt, alloc) {
        Ok(pass) => Ok(pass),
        Err(fault) => Err(ServingFault::Office(fault)),
    }
}

/// Makes room for so many threads.
fn make_room<T>(threads: &mut Vec<T>, count: usize) -> Result<(), ServingFault> {
    match threads.reserve(count) {
        Ok(()) => Ok(()),
        Err(_) => Err(ServingFault::Http(HttpFault::OutOfMemory)),
    }
}

/// Keeps a thread, for which there is room.
fn keep<T: Drop>(threads: &mut Vec<T>, thread: T) {
    let _ = threads.push(thread);
}

/// Starts an agent's thread.
fn start_agent<
    's,
    E,
    D: Running + Send + Sync + 's,
    L: ledger::Ledger + Send + Sync + 's,
    R: Net<Listener = TcpListener, Stream = TcpStream>
        + Threads
        + Wait
        + Clock
        + Eprint
        + Sync
        + 's,
>(
    scope: &Scope<'s, E>,
    rt: &'s R,
    alloc: Global,
    office: &'s Office<D, L>,
    file: RecordFile<'s>,
    entrance: Entrance<'s>,
    pace: Pace,
) -> Result<JoinHandle<Leaver<L>>, ServingFault> {
    let pass = seated(rt, alloc, office)?;
    started(scope.spawn(move || keep_going(rt, alloc, office, pass, file, entrance, pace)))
}

/// Starts the thread of the master's time.
fn start_ticker<
    's,
    E,
    D: Running + Send + Sync + 's,
    L: ledger::Ledger + Send + Sync + 's,
    R: Threads + Wait + Clock + Sync + 's,
>(
    scope: &Scope<'s, E>,
    rt: &'s R,
    alloc: Global,
    office: &'s Office<D, L>,
    pace: Pace,
) -> Result<JoinHandle<Leaver<L>>, ServingFault> {
    let pass = seated(rt, alloc, office)?;
    let interval = pace.interval;
    started(scope.spawn(move || keep_time(rt, alloc, office, pass, interval)))
}

/// Starts the thread that declines offers which are left unanswered, where any is declined.
fn start_decliner<
    's,
    E,
    D: Running + Send + Sync + 's,
    L: ledger::Ledger + Send + Sync + 's,
    R: Threads + Wait + Clock + Sync + 's,
>(
    scope: &Scope<'s, E>,
    rt: &'s R,
    alloc: Global,
    office: &'s Office<D, L>,
    pace: Pace,
    threads: &mut Vec<JoinHandle<Leaver<L>>>,
) -> Result<(), ServingFault> {
    let seconds = pace.offer_seconds;
    if seconds == 0 {
        return Ok(());
    }
    make_room(threads, 1)?;
    let pass = seated(rt, alloc, office)?;
    let thread = scope.spawn(move || keep_declining(rt, alloc, office, pass, seconds));
    keep(threads, started(thread)?);
    Ok(())
}

/// Starts the thread that looks how much memory there is, where it is limited.
fn start_memory<
    's,
    E,
    D: Running + Send + Sync + 's,
    L: ledger::Ledger + Send + Sync + 's,
    R: Net<Listener = TcpListener, Stream = TcpStream>
        + Threads
        + Wait
        + Clock
        + Eprint
        + Sync
        + 's,
>(
    scope: &Scope<'s, E>,
    rt: &'s R,
    alloc: Global,
    office: &'s Office<D, L>,
    entrance: Entrance<'s>,
    threads: &mut Vec<JoinHandle<Leaver<L>>>,
) -> Result<(), ServingFault> {
    let memory = entrance.memory;
    if memory.mebibytes == 0 {
        return Ok(());
    }
    make_room(threads, 1)?;
    let pass = seated(rt, alloc, office)?;
    let thread = scope.spawn(move || keep_within(rt, office, pass, entrance, memory));
    keep(threads, started(thread)?);
    Ok(())
}

/// Starts the threads of all agents.
fn start_agents<
    's,
    E,
    D: Running + Send + Sync + 's,
    L: ledger::Ledger + Send + Sync + 's,
    R: Net<Listener = TcpListener, Stream = TcpStream>
        + Threads
        + Wait
        + Clock
        + Eprint
        + Sync
        + 's,
>(
    scope: &Scope<'s, E>,
    rt: &'s R,
    alloc: Global,
    office: &'s Office<D, L>,
    files: Vec<RecordFile<'s>>,
    entrance: Entrance<'s>,
    pace: Pace,
    threads: &mut Vec<JoinHandle<Leaver<L>>>,
) -> Result<(), ServingFault> {
    for file in files {
        let thread = start_agent(scope, rt, alloc, office, file, entrance, pace)?;
        keep(threads, thread);
    }
    Ok(())
}

/// Starts the threads of all agents, of the master's time, of offers that are left unanswered, and
/// of the limit on memory.
/// Those that run when one is refused are among the threads too.
pub(crate) fn start_all<
    's,
    E,
    D: Running + Send + Sync + 's,
    L: ledger::Ledger + Send + Sync + 's,
    R: Net<Listener = TcpListener, Stream = TcpStream>
        + Threads
        + Wait
        + Clock
        + Eprint
        + Sync
        + 's,
>(
    scope: &Scope<'s, E>,
    rt: &'s R,
    alloc: Global,
    office: &'s Office<D, L>,
    files: Vec<RecordFile<'s>>,
    entrance: Entrance<'s>,
    pace: Pace,
    threads: &mut Vec<JoinHandle<Leaver<L>>>,
) -> Result<(), ServingFault> {
    make_room(threads, files.len())?;
    start_agents(scope, rt, alloc, office, files, entrance, pace, threads)?;
    make_room(threads, 1)?;
    keep(threads, start_ticker(scope, rt, alloc, office, pace)?);
    start_decliner(scope, rt, alloc, office, pace, threads)?;
    start_memory(scope, rt, alloc, office, entrance, threads)
}
