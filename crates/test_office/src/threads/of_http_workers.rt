ghost use Rattle.std.specs.Prelude.{◌≡◌, ◌-◌, ◌<◌, ◌≤◌, [], ⊤, IfSome, length};

use http_door::{Answer, Bench, Gate, Inlet, NoGate, Outlet, Section, Sink, Source};
use http_serve::{Arrivals, HttpFault, serve_all};
use messages::{Call, Event};
use names_core::{FrameworkId, StreamId};
use std::alloc::{AllocError, Global};
use std::io::{Read, Write};
use std::net::{Net, SocketAddr, TcpListener, TcpStream};
use std::sync::Wait;
use std::sync::atomic::{AtomicU64, Ordering};
use std::thread;
use std::thread::Threads;
use std::time::{Clock, Duration};

/// So many connections are served at once.
const WORKERS: u32 = 64;

const REVIVE: &str =
    "POST /api/v1/scheduler HTTP/1.1\r\nContent-Type: application/json\r\nConnection: close\r\nContent-Length: 49\r\n\r\n{\"type\":\"REVIVE\",\"framework_id\":{\"value\":\"F1-1\"}}";

const ACCEPTED: &str = "HTTP/1.1 202 Accepted\r\nContent-Length: 0\r\n\r\n";

const SUBSCRIBE: &str =
    "POST /api/v1/scheduler HTTP/1.1\r\nHost: 127.0.0.1\r\nContent-Type: application/json\r\nContent-Length: 75\r\n\r\n{\"type\":\"SUBSCRIBE\",\"subscribe\":{\"framework_info\":{\"user\":\"u\",\"name\":\"n\"}}}";

const STREAM: &str =
    "HTTP/1.1 200 OK\r\nContent-Type: application/json\r\nTransfer-Encoding: chunked\r\nMesos-Stream-Id: S1-1\r\n\r\n68\r\n100\n{\"subscribed\":{\"framework_id\":{\"value\":\"F1-1\"},\"heartbeat_interval_seconds\":15},\"type\":\"SUBSCRIBED\"}\r\n0\r\n\r\n";

/// Accepts each call, and returns one event on a stream.
#[derive(Drop)]
struct Script {
    calls: u32,
    events: u32,
}

impl Bench for Script {
    ghost does = { λ _ _ _. ⊤ };

    fn call(&mut self, _stream: Option<StreamId>, call: Call) -> Answer {
        self.calls = self.calls.saturating_add(1);
        match call {
            Call::Subscribe { .. } => Answer::Opened(StreamId::new(1, 1)),
            _ => Answer::Accepted,
        }
    }

    fn next_events(&mut self, _stream: StreamId) -> Result<Option<Event>, AllocError> {
        if self.events == 0 {
            return Ok(None);
        }
        self.events -= 1;
        Ok(Some(Event::Subscribed {
            framework: FrameworkId::new(1, 1),
        }))
    }

    fn hang_up(&mut self, _stream: StreamId) {
        self.events = 0;
    }
}

/// Connections in memory, each with what its client sends.
#[derive(Drop)]
struct Waiting {
    alloc: Global,
    requests: Vec<Vec<u8>>,
    /// How many there were.
    count: usize,
    ghost fewer: { length requests.items ≤ count },
}

impl Arrivals for Waiting {
    type In = Source;

    type Out = Sink;

    type Seat = Script;

    ghost taken = { λ w. w.count - length w.requests.items };

    ghost is_seat = { λ script. script.calls ≡ 0 };

    ghost ended = { λ w. w.requests.items ≡ [] };

    fn next(&mut self) -> Option<(Source, Sink, Script)> {
        let bytes = self.requests.pop()?;
        let source = Source {
            bytes,
            most: 7,
            turns: 1 << 20,
            faults: 0,
        };
        let sink = Sink {
            bytes: Vec::new(self.alloc),
            most: 7,
            turns: 1 << 20,
            faults: 0,
        };
        Some((
            source,
            sink,
            Script {
                calls: 0,
                events: 1,
            },
        ))
    }

    fn bears(&mut self, _fault: HttpFault) -> bool {
        false
    }

    fn give_up(&mut self, _fault: HttpFault) {}
}

fn push_request(requests: &mut Vec<Vec<u8>>, alloc: Global, request: &str) -> Option<()> {
    requests
        .push(Vec::from_slice(alloc, request.as_bytes()).ok()?)
        .ok()
}

fn push_requests(
    requests: &mut Vec<Vec<u8>>,
    alloc: Global,
    request: &str,
    count: usize,
) -> Option<()> {
    for _ in 0..count {
        push_request(requests, alloc, request)?;
    }
    Some(())
}

/// So many connections in memory that send the same.
fn requests_of(alloc: Global, request: &str, count: usize) -> Option<Waiting> {
    let mut requests = Vec::new(alloc);
    push_requests(&mut requests, alloc, request, count)?;
    let count = requests.len();
    Some(Waiting {
        alloc,
        requests,
        count,
    })
}

/// Whether each of so many benches was returned, and took one call.
fn each_took_one_call(benches: &[Script], count: usize) -> bool {
    benches.len() == count && benches.iter().all(|bench| bench.calls == 1)
}

fn serves<R: Threads + Wait + Sync>(
    rt: &R,
    alloc: Global,
    arrivals: &mut Waiting,
    count: usize,
) -> bool {
    let (benches, fault) = serve_all(rt, alloc, WORKERS, arrivals, &NoGate);
    fault.is_none() && arrivals.requests.is_empty() && each_took_one_call(&benches, count)
}

fn serves_waiting<R: Threads + Wait + Sync>(
    rt: &R,
    alloc: Global,
    request: &str,
    count: usize,
) -> bool {
    match requests_of(alloc, request, count) {
        Some(mut arrivals) => serves(rt, alloc, &mut arrivals, count),
        None => false,
    }
}

/// How many connections there are, and what each sends.
const WAITING: [(&str, usize); 3] = [(REVIVE, 0), (REVIVE, 2), (SUBSCRIBE, 70)];

/// No connection, two that call, and 70 that subscribe: more than there are workers.
pub fn connections_in_memory<R: Threads + Wait + Sync>(rt: &R, alloc: Global) -> bool {
    for i in 0..WAITING.len() {
        let (request, count) = WAITING[i];
        if !serves_waiting(rt, alloc, request, count) {
            return false;
        }
    }
    true
}

fn faults_of(alloc: Global) -> Option<String> {
    format!(in alloc; "{}, {}", HttpFault::OutOfMemory, HttpFault::NoThread).ok()
}

fn is(text: &Option<String>, wanted: &str) -> bool {
    match text {
        Some(text) => text.as_str() == wanted,
        None => false,
    }
}

/// The texts of what the workers refuse.
pub fn faults(alloc: Global) -> bool {
    is(&faults_of(alloc), "H8 OutOfMemory, H9 NoThread")
}

/// One end of a TCP connection.
#[derive(Drop)]
struct Line {
    stream: TcpStream,
    faults: u64,
}

impl Inlet for Line {
    ghost reads = { λ _ _ _. ⊤ };

    ghost ended = { λ _. ⊤ };

    ghost faults = { λ line. line.faults };

    fn read(&mut self, piece: &mut [u8]) -> Option<usize> {
        match self.stream.read(piece) {
            Ok(count) => Some(count),
            Err(_) => {
                self.faults += 1;
                None
            }
        }
    }

    fn begin(&mut self, _section: Section, _there: usize) {}

    ghost reads_nothing = { λ _. tt };

    ghost reads_more = { λ _ _ _ _ _ _ _. tt };
}

impl Outlet for Line {
    ghost writes = { λ _ _ _. ⊤ };

    ghost faults = { λ line. line.faults };

    fn write(&mut self, piece: &[u8]) -> Option<usize> {
        match self.stream.write(piece) {
            Ok(count) if count > 0 => Some(count),
            _ => {
                self.faults += 1;
                None
            }
        }
    }

    fn begin_text(&mut self) {}

    ghost writes_nothing = { λ _. tt };

    ghost writes_more = { λ _ _ _ _ _ _ _. tt };
}

/// So many connections of a listener.
#[derive(Drop)]
struct Accepting<'a> {
    listener: &'a TcpListener,
    most: u32,
    taken: u32,
}

/// Waits for a client, and returns both ends of its connection.
fn accepted(listener: &TcpListener) -> Option<(Line, Line)>
    ensures { IfSome result (λ ends. (ends.0.faults ≡ 0) × (ends.1.faults ≡ 0)) }
{
    let stream = listener.accept().ok()?.0;
    let other = stream.try_clone().ok()?;
    let inlet = Line { stream, faults: 0 };
    let outlet = Line {
        stream: other,
        faults: 0,
    };
    Some((inlet, outlet))
}

impl<'a> Arrivals for Accepting<'a> {
    type In = Line;

    type Out = Line;

    type Seat = Script;

    ghost taken = { λ a. a.taken };

    ghost is_seat = { λ script. script.calls ≡ 0 };

    ghost ended = { λ _. ⊤ };

    fn next(&mut self) -> Option<(Line, Line, Script)> {
        if self.taken >= self.most {
            return None;
        }
        let (inlet, outlet) = accepted(self.listener)?;
        self.taken += 1;
        Some((
            inlet,
            outlet,
            Script {
                calls: 0,
                events: 1,
            },
        ))
    }

    fn bears(&mut self, _fault: HttpFault) -> bool {
        false
    }

    fn give_up(&mut self, _fault: HttpFault) {}
}

/// Connects, and sends a request.
fn ask<R: Net<Listener = TcpListener, Stream = TcpStream>>(
    rt: &R,
    to: SocketAddr,
    request: &str,
) -> Option<TcpStream> {
    let mut stream = TcpStream::connect(rt, to).ok()?;
    stream.write_all(request.as_bytes()).ok()?;
    Some(stream)
}

/// Whether just this is read to the end of the connection.
fn reads(alloc: Global, stream: &mut TcpStream, want: &str) -> bool {
    let mut got = Vec::new(alloc);
    stream.read_to_end(&mut got).is_ok() && got.as_slice() == want.as_bytes()
}

fn read_two(alloc: Global, one: &mut TcpStream, two: &mut TcpStream) -> bool {
    reads(alloc, one, ACCEPTED) && reads(alloc, two, STREAM)
}

/// Two clients, whose requests are both sent before an answer is read;
/// whether both are answered so.
fn ask_two<R: Net<Listener = TcpListener, Stream = TcpStream>>(
    rt: &R,
    alloc: Global,
    to: SocketAddr,
) -> bool {
    match (ask(rt, to, REVIVE), ask(rt, to, SUBSCRIBE)) {
        (Some(mut one), Some(mut two)) => read_two(alloc, &mut one, &mut two),
        _ => false,
    }
}

/// Holds the first call until the second is answered, for at most 1,000,000 turns of 100 microseconds.
#[derive(Drop)]
struct Overlap<'a, R: Clock> {
    rt: &'a R,
    calls: AtomicU64,
    answered: AtomicU64,
    overlapped: AtomicU64,
}

impl<'a, R: Clock> Overlap<'a, R> {
    fn hold(&self) {
        for _ in 0..1_000_000u32 {
            if self.answered.load(Ordering::SeqCst) == 1 {
                self.overlapped.store(1, Ordering::SeqCst);
                return;
            }
            thread::sleep(self.rt, Duration::from_micros(100));
        }
    }
}

impl<'a, R: Clock> Gate for Overlap<'a, R> {
    fn before(&self) -> u64 {
        let n = self.calls.fetch_add(1, Ordering::SeqCst);
        if n == 0 {
            self.hold();
        }
        n
    }

    fn after(&self, n: u64) {
        if n == 1 {
            self.answered.store(1, Ordering::SeqCst);
        }
    }
}

fn serves_two<R: Net<Listener = TcpListener, Stream = TcpStream> + Threads + Wait + Clock + Sync>(
    rt: &R,
    alloc: Global,
    listener: &TcpListener,
    to: SocketAddr,
) -> bool {
    let mut arrivals = Accepting {
        listener,
        most: 2,
        taken: 0,
    };
    let gate = Overlap {
        rt,
        calls: AtomicU64::new(0),
        answered: AtomicU64::new(0),
        overlapped: AtomicU64::new(0),
    };
    let (asked, (benches, fault)) = thread::join(
        rt,
        move || ask_two(rt, alloc, to),
        || serve_all(rt, alloc, WORKERS, &mut arrivals, &gate),
    );
    let overlapped = gate.overlapped.load(Ordering::SeqCst) == 1;
    asked && fault.is_none() && overlapped && each_took_one_call(&benches, 2)
}

fn listened<R: Net<Listener = TcpListener, Stream = TcpStream>>(
    rt: &R,
) -> Option<(TcpListener, SocketAddr)> {
    let listener = TcpListener::bind(rt, "127.0.0.1:0").ok()?;
    let to = listener.local_addr().ok()?;
    Some((listener, to))
}

/// The call of one connection is held until that of another is answered.
pub fn two_connections_overlap<
    R: Net<Listener = TcpListener, Stream = TcpStream> + Threads + Wait + Clock + Sync,
>(rt: &R, alloc: Global) -> bool {
    match listened(rt) {
        Some((listener, to)) => serves_two(rt, alloc, &listener, to),
        None => false,
    }
}
