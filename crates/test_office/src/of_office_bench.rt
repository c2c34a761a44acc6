//! Connections over loopback to an office: what each sends, and what it is answered.

ghost use Rattle.std.specs.Prelude.{◌≡◌};

use crate::full::Full;
use crate::requests::{HISTORY_FULL, SEATS_SPENT, SUBSCRIBE};
use crate::scripts::{HAS_NO_MASTER, LOSES_MASTER, Move, OVERLAPS, SUBSCRIBES};
use crate::served::{Closed, refuses_unopened, served};
use cluster_core::RecordedCluster;
use desk_lock::{Desk, Office};
use http_door::{Bench, BenchFault, NoGate, Sink, Source, serve_conn};
use http_serve::{Places, SeatBench, Seating};
use names_core::Run;
use std::alloc::Global;
use std::marker::Brand;
use std::net::{Net, TcpListener, TcpStream};
use std::sync::ledger::Blank;
use std::sync::{Wait, ledger};
use std::thread::Threads;
use std::time::Clock;

/// One part for each seat, and one for the desk.
const PARTS: u64 = 1 << 32;

/// The number of no call, so that none is held.
const NONE: u64 = u64::MAX;

/// What is seen where each of so many moves went as it is to go.
fn all_of(moves: usize, overlapped: bool, hang_ups: usize) -> Option<Closed> {
    Some(Closed {
        moves,
        overlapped,
        hang_ups,
    })
}

/// What is seen at the close of an office of its own, over a cluster that opens in this run.
fn seen<
    R: Net<Listener = TcpListener, Stream = TcpStream> + Threads + Wait + Clock + Eprint + Sync,
>(rt: &R, alloc: Global, run: Run, held: u64, script: &[Move]) -> Option<Closed> {
    served::<Brand, R>(rt, alloc, Blank::new(PARTS), run, held, script)
}

/// A stream ends once the office is finished.
pub fn a_subscription_ends_with_the_office<
    R: Net<Listener = TcpListener, Stream = TcpStream> + Threads + Wait + Clock + Eprint + Sync,
>(rt: &R, alloc: Global) -> bool {
    seen(rt, alloc, Run::new(1), NONE, SUBSCRIBES) == all_of(SUBSCRIBES.len(), false, 0)
}

/// A stream ends once its master stops.
pub fn a_master_stops<
    R: Net<Listener = TcpListener, Stream = TcpStream> + Threads + Wait + Clock + Eprint + Sync,
>(rt: &R, alloc: Global) -> bool {
    seen(rt, alloc, Run::new(1), NONE, LOSES_MASTER) == all_of(LOSES_MASTER.len(), false, 0)
}

/// A master that stops in the last run leaves none: a call is answered by C2.
pub fn no_master_is_up<
    R: Net<Listener = TcpListener, Stream = TcpStream> + Threads + Wait + Clock + Eprint + Sync,
>(rt: &R, alloc: Global) -> bool {
    seen(rt, alloc, Run::new(65_535), NONE, HAS_NO_MASTER) == all_of(HAS_NO_MASTER.len(), false, 0)
}

/// The second call, from 0, is held until the third is answered.
pub fn two_calls_overlap<
    R: Net<Listener = TcpListener, Stream = TcpStream> + Threads + Wait + Clock + Eprint + Sync,
>(rt: &R, alloc: Global) -> bool {
    seen(rt, alloc, Run::new(1), 1, OVERLAPS) == all_of(OVERLAPS.len(), true, 1)
}

/// Whether a bench answers a SUBSCRIBE in memory so.
fn answers<B: Bench>(alloc: Global, bench: &mut B, told: &str) -> bool {
    match Vec::from_slice(alloc, SUBSCRIBE.as_bytes()) {
        Ok(bytes) => answers_bytes(alloc, bench, bytes, told),
        Err(_) => false,
    }
}

fn answers_bytes<B: Bench>(alloc: Global, bench: &mut B, bytes: Vec<u8>, told: &str) -> bool {
    let mut source = Source {
        bytes,
        most: 64,
        turns: 1 << 20,
        faults: 0,
    };
    let mut sink = Sink {
        bytes: Vec::new(alloc),
        most: 64,
        turns: 1 << 20,
        faults: 0,
    };
    let _served = serve_conn(alloc, &mut source, &mut sink, bench, &NoGate);
    sink.bytes.as_slice() == told.as_bytes()
}

/// Whether a connection without a seat is refused.
fn refuses_without_seat<'x, L: ledger::Ledger + 'x, R: Wait + 'x>(
    _rt: &'x R,
    alloc: Global,
) -> bool {
    let mut seating: Seating<'x, RecordedCluster, L, R> = Seating::Refusing(BenchFault::SeatsSpent);
    answers(alloc, &mut seating, SEATS_SPENT)
}

/// A SUBSCRIBE is answered by O5 where no seat is left.
pub fn no_seat_is_left<R: Wait>(rt: &R, alloc: Global) -> bool {
    refuses_without_seat::<Brand, _>(rt, alloc)
}

/// Who waits on a stream that was never opened is refused.
pub fn a_stream_never_opened<R: Wait>(rt: &R, alloc: Global) -> bool {
    refuses_unopened::<Brand, _>(rt, alloc, Blank::new(PARTS)) == Some(true)
}

/// Whether a SUBSCRIBE is refused at an office over a cluster whose history is full.
fn refuses_full<L: ledger::Ledger, R: Wait>(rt: &R, alloc: Global, blank: Blank) -> bool
    requires name { blank.name ≡ L.name }
    requires parts { (blank.parts ≡ L.parts) × (blank.parts ≡ 4294967296) }
{
    let office = Office::new(Desk::<_, L>::new(alloc, Full, blank));
    let Ok(pass) = office.open_seat(rt, alloc) else {
        return false;
    };
    let streams = Places::new(1);
    let mut bench = SeatBench::new(rt, alloc, &office, pass, &streams);
    let refuses = answers(alloc, &mut bench, HISTORY_FULL);
    drop(bench);
    drop(office);
    refuses
}

/// A SUBSCRIBE is answered by C6 where the history is full.
pub fn a_history_is_full<R: Wait>(rt: &R, alloc: Global) -> bool {
    refuses_full::<Brand, _>(rt, alloc, Blank::new(PARTS))
}
