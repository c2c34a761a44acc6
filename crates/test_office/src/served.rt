//! An office over a cluster of agent a1, served to a client.

ghost use Rattle.std.specs.Prelude.{◌≡◌, [], IfSome};

use crate::client::Client;
use crate::gate::Overlap;
use crate::scripts::Move;
use cluster_channels::Queues;
use cluster_core::{
    Cluster, Config, Entry, KeptEntry, RecordedCluster, Step, Verdict, fresh_records, good_opening,
};
use desk_core::Running;
use desk_lock::{Desk, Office, Pass, Passes, Recorded};
use http_door::Bench;
use http_serve::{ConnectionLimits, Ending, Places, SeatBench, Seating, TcpArrivals, serve_all};
use master_core::ConfiguredAgents;
use names_core::{AgentName, Run, StreamId, Weights};
use quantity::Resources;
use std::alloc::Global;
use std::net::{Net, TcpListener, TcpStream};
use std::sync::ledger::Blank;
use std::sync::{Wait, ledger};
use std::thread;
use std::thread::Threads;
use std::time::Clock;

/// So many connections are served at once.
const WORKERS: u32 = 64;

/// What is seen at the close.
#[derive(Clone, Copy, Drop, PartialEq, Eq)]
pub struct Closed {
    /// How many moves of the script went as they are to go.
    pub moves: usize,
    /// Whether a call was held, and released by the answer to the next.
    pub overlapped: bool,
    /// How many streams were hung up.
    pub hang_ups: usize,
}

/// Agent a1, of 4 cpus and 4,096 of memory.
fn one_agent(alloc: Global) -> Option<Config> {
    let mut total = Resources::new(alloc);
    total.add(alloc, "cpus", 4).ok()?;
    total.add(alloc, "mem", 4096).ok()?;
    let mut agents = ConfiguredAgents::new(alloc);
    agents
        .add(AgentName::from_text(alloc, "a1").ok()?, total)
        .ok()?;
    let weights = Weights::new(alloc);
    Some(Config { agents, weights })
}

fn recorded(alloc: Global, run: Run) -> Option<RecordedCluster>
    ensures { IfSome result (λ recorded. recorded.story.entries ≡ []) }
{
    let config = one_agent(alloc)?;
    let Ok(records) = fresh_records(alloc, &config.agents) else {
        return None;
    };
    if !good_opening(&config.agents, records.as_slice(), run) {
        return None;
    }
    match Cluster::<Queues>::open(alloc, config, records, run) {
        Ok(cluster) => Some(RecordedCluster::new(cluster)),
        Err(_) => None,
    }
}

/// Whether an entry hung a stream up.
fn hangs_up(entry: &Entry) -> bool {
    matches!(entry.step, Step::HangUp(_)) && matches!(entry.verdict, Verdict::Ok)
}

fn count_hang_ups(entries: &[KeptEntry]) -> usize {
    let mut count = 0usize;
    for entry in entries {
        if hangs_up(entry.get()) {
            count = count.saturating_add(1);
        }
    }
    count
}

/// What is left of a client and of the connections.
#[derive(Drop)]
struct Left<L: ledger::Ledger> {
    passes: Passes<KeptEntry, L>,
    receipts: u64,
    moves: usize,
    /// Whether something failed: a thread, the listener, or memory for a pass.
    failed: bool,
}

impl<L: ledger::Ledger> Left<L> {
    fn new(alloc: Global) -> Left<L> {
        Left {
            passes: Passes::new(alloc),
            receipts: 0,
            moves: 0,
            failed: false,
        }
    }

    /// Adds a pass for the close, and counts its receipts.
    fn hand_in(&mut self, pass: Pass<KeptEntry, L>) {
        let count = pass.receipts().len() as u64;
        self.receipts = self.receipts.saturating_add(count);
        if self.passes.push(pass).is_err() {
            self.failed = true;
        }
    }

    /// Adds the passes of all connections for the close.
    fn hand_in_all<D: Running, R: Wait>(&mut self, seats: Vec<Seating<'_, D, L, R>>) {
        for seat in seats {
            match seat.into_pass() {
                Some(pass) => self.hand_in(pass),
                None => self.failed = true,
            }
        }
    }
}

fn client_of<'x, D: Running, L: ledger::Ledger, R: Wait + Clock>(
    rt: &'x R,
    alloc: Global,
    office: &'x Office<D, L>,
    gate: &'x Overlap<'x, R>,
    listener: &TcpListener,
) -> Option<Client<'x, D, L, R>> {
    let to = listener.local_addr().ok()?;
    let pass = office.open_seat(rt, alloc).ok()?;
    Some(Client::new(rt, alloc, office, pass, gate, to))
}

fn arrivals_at<'x, D: Running, L: ledger::Ledger, R: Wait + Clock + Eprint>(
    rt: &'x R,
    alloc: Global,
    office: &'x Office<D, L>,
    listener: &'x TcpListener,
    ending: &'x Ending,
    streams: &'x Places,
) -> Option<TcpArrivals<'x, D, L, R>> {
    let limits = ConnectionLimits {
        connections: 0,
        idle_seconds: 0,
        streams,
        bodies: streams,
        keep_serving: false,
    };
    let pass = office.open_seat(rt, alloc).ok()?;
    Some(TcpArrivals::new(rt, alloc, office, pass, listener, limits, ending))
}

/// Serves a client that plays a script, in two threads.
fn join<
    'x,
    D: Running + Send + Sync,
    L: ledger::Ledger + Send + Sync,
    R: Net<Listener = TcpListener, Stream = TcpStream> + Threads + Wait + Clock + Eprint + Sync,
>(
    rt: &'x R,
    alloc: Global,
    client: Client<'x, D, L, R>,
    mut arrivals: TcpArrivals<'x, D, L, R>,
    gate: &Overlap<'_, R>,
    script: &[Move],
    left: &mut Left<L>,
) {
    let ((pass, moves), (seats, fault)) = thread::join(
        rt,
        move || client.play(script),
        || serve_all(rt, alloc, WORKERS, &mut arrivals, gate),
    );
    left.moves = moves;
    left.failed = fault.is_some();
    left.hand_in(pass);
    left.hand_in(arrivals.into_pass());
    left.hand_in_all(seats);
}

/// Serves a client that plays a script, and returns whether it could.
fn serve<
    'x,
    D: Running + Send + Sync,
    L: ledger::Ledger + Send + Sync,
    R: Net<Listener = TcpListener, Stream = TcpStream> + Threads + Wait + Clock + Eprint + Sync,
>(
    rt: &'x R,
    alloc: Global,
    office: &'x Office<D, L>,
    gate: &'x Overlap<'x, R>,
    script: &[Move],
    left: &mut Left<L>,
) -> Option<()> {
    let listener = TcpListener::bind(rt, "127.0.0.1:0").ok()?;
    let ending = Ending::new();
    let streams = Places::new(u64::from(WORKERS));
    let client = client_of(rt, alloc, office, gate, &listener)?;
    let arrivals = arrivals_at(rt, alloc, office, &listener, &ending, &streams)?;
    join(rt, alloc, client, arrivals, gate, script, left);
    Some(())
}

fn where_accounted(accounted: bool, closed: Closed) -> Option<Closed> {
    if accounted { Some(closed) } else { None }
}

/// How many entries an office has at its close, and what a look returns of them.
fn closed_of<C: Recorded, L: ledger::Ledger, T, F: Fn(&C) -> T>(
    office: Office<C, L>,
    passes: Passes<C::Entry, L>,
    look: F,
) -> Option<(u32, T)>
    requires { F.IsAlwaysCallable look }
{
    match office.close(passes) {
        Ok(history) => Some((history.len(), look(history.recorded()))),
        Err(_) => None,
    }
}

/// What is seen where each entry but the opening has its receipt.
fn close_office<L: ledger::Ledger>(
    office: Office<RecordedCluster, L>,
    left: Left<L>,
    overlapped: bool,
) -> Option<Closed> {
    let Left {
        passes,
        receipts,
        moves,
        failed,
    } = left;
    let look = |recorded: &RecordedCluster| count_hang_ups(recorded.cluster().history());
    match closed_of(office, passes, look) {
        Some((count, hang_ups)) => where_accounted(
            !failed && count as u64 == receipts.saturating_add(1),
            Closed {
                moves,
                overlapped,
                hang_ups,
            },
        ),
        None => None,
    }
}

/// Serves a client that plays a script over a cluster that opens in this run,
/// while the call of this number is held until the next is answered.
pub fn served<
    L: ledger::Ledger + Send + Sync,
    R: Net<Listener = TcpListener, Stream = TcpStream> + Threads + Wait + Clock + Eprint + Sync,
>(rt: &R, alloc: Global, blank: Blank, run: Run, held: u64, script: &[Move]) -> Option<Closed>
    requires name { blank.name ≡ L.name }
    requires parts { (blank.parts ≡ L.parts) × (blank.parts ≡ 4294967296) }
{
    let office = Office::new(Desk::<_, L>::new(alloc, recorded(alloc, run)?, blank));
    let gate = Overlap::new(rt, held);
    let mut left = Left::new(alloc);
    let is_served = serve(rt, alloc, &office, &gate, script, &mut left).is_some();
    left.failed = left.failed || !is_served;
    close_office(office, left, gate.has_overlapped())
}

/// Whether who waits on a stream that was never opened is refused: no step is taken,
/// and the stream isn't reported to have ended.
fn is_refused<D: Running, L: ledger::Ledger, R: Wait>(
    rt: &R,
    alloc: Global,
    office: &Office<D, L>,
) -> bool {
    let Ok(pass) = office.open_seat(rt, alloc) else {
        return false;
    };
    let streams = Places::new(1);
    let mut bench = SeatBench::new(rt, alloc, office, pass, &streams);
    let told = bench.next_events(StreamId::new(1, 9));
    told.is_err() && bench.into_pass().receipts().is_empty()
}

/// The same at an office that opened no stream.
pub fn refuses_unopened<L: ledger::Ledger, R: Wait>(
    rt: &R,
    alloc: Global,
    blank: Blank,
) -> Option<bool>
    requires name { blank.name ≡ L.name }
    requires parts { (blank.parts ≡ L.parts) × (blank.parts ≡ 4294967296) }
{
    let office = Office::new(Desk::<_, L>::new(alloc, recorded(alloc, Run::new(1))?, blank));
    let refuses = is_refused(rt, alloc, &office);
    drop(office);
    Some(refuses)
}
