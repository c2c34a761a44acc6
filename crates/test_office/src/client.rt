//! A client of the endpoint.

use crate::gate::Overlap;
use crate::scripts::Move;
use cluster_core::{KeptEntry, Step, StepCause};
use desk_core::Running;
use desk_lock::{Office, Pass};
use names_core::{AgentName, StreamId};
use std::alloc::Global;
use std::io::{Read, Write};
use std::net::{Net, SocketAddr, TcpListener, TcpStream};
use std::sync::{Wait, ledger};
use std::time::{Clock, Duration};

/// Connects, and sends a request. A read on the connection waits for 20 seconds at most.
fn connect<R: Net<Listener = TcpListener, Stream = TcpStream>>(
    rt: &R,
    to: SocketAddr,
    request: &str,
) -> Option<TcpStream> {
    let mut stream = TcpStream::connect(rt, to).ok()?;
    stream.set_read_timeout(Some(Duration::from_secs(20))).ok()?;
    stream.write_all(request.as_bytes()).ok()?;
    Some(stream)
}

/// Whether just this is read next.
fn reads(alloc: Global, stream: &mut TcpStream, want: &str) -> bool {
    let Ok(mut got) = Vec::from_slice(alloc, want.as_bytes()) else {
        return false;
    };
    got.as_mut_slice().fill(0);
    stream.read_exact(got.as_mut_slice()).is_ok() && got.as_slice() == want.as_bytes()
}

/// Whether just this is read up to the end of the connection.
fn reads_last(alloc: Global, stream: &mut TcpStream, want: &str) -> bool {
    let mut got = Vec::new(alloc);
    stream.read_to_end(&mut got).is_ok() && got.as_slice() == want.as_bytes()
}

/// A client, with a seat of its own by which it has the cluster take steps.
#[derive(Drop)]
pub struct Client<'a, D: Running, L: ledger::Ledger, R: Wait + Clock> {
    rt: &'a R,
    alloc: Global,
    office: &'a Office<D, L>,
    pass: Pass<KeptEntry, L>,
    gate: &'a Overlap<'a, R>,
    to: SocketAddr,
    connections: Vec<TcpStream>,
}

impl<'a, D: Running, L: ledger::Ledger, R: Wait + Clock> Client<'a, D, L, R> {
    pub fn new(
        rt: &'a R,
        alloc: Global,
        office: &'a Office<D, L>,
        pass: Pass<KeptEntry, L>,
        gate: &'a Overlap<'a, R>,
        to: SocketAddr,
    ) -> Client<'a, D, L, R> {
        Client {
            rt,
            alloc,
            office,
            pass,
            gate,
            to,
            connections: Vec::new(alloc),
        }
    }

    /// Has the office take a step.
    fn step(&mut self, step: Step) -> bool {
        self.office
            .call(self.rt, self.alloc, &mut self.pass, step)
            .is_ok()
    }

    /// Has the agent prepare its answer to the master's Hello,
    /// which has the number 1, and commit it.
    fn answers(&mut self) -> bool {
        let (Ok(agent), Ok(same)) = (
            AgentName::from_text(self.alloc, "a1"),
            AgentName::from_text(self.alloc, "a1"),
        ) else {
            return false;
        };
        let cause = StepCause::Mail(1);
        self.step(Step::Prepare { agent, cause }) && self.step(Step::Commit(same))
    }

    /// Has the agent answer the master's Hello by a Report, which has the number 2.
    fn reports(&mut self) -> bool {
        self.answers() && self.step(Step::Deliver(2))
    }
}

impl<
    'a,
    D: Running,
    L: ledger::Ledger,
    R: Net<Listener = TcpListener, Stream = TcpStream> + Wait + Clock,
> Client<'a, D, L, R> {
    fn ask(&mut self, request: &str) -> bool {
        match connect(self.rt, self.to, request) {
            Some(stream) => self.connections.push(stream).is_ok(),
            None => false,
        }
    }

    /// Does a move on one of its connections.
    fn go_on(&mut self, number: usize, goes: Move) -> bool {
        let alloc = self.alloc;
        match (self.connections.get_mut(number), goes) {
            (Some(stream), Move::Send(_, request)) => stream.write_all(request.as_bytes()).is_ok(),
            (Some(stream), Move::Expect(_, want)) => reads(alloc, stream, want),
            (Some(stream), Move::ExpectLast(_, want)) => reads_last(alloc, stream, want),
            _ => false,
        }
    }

    fn finish(&self) {
        self.office.finish(self.rt);
    }

    /// Does a move, and returns whether it went as it is to go.
    fn goes(&mut self, goes: Move) -> bool {
        match goes {
            Move::Ask(request) => self.ask(request),
            Move::Send(number, _) | Move::Expect(number, _) | Move::ExpectLast(number, _) => {
                self.go_on(number, goes)
            }
            Move::WaitBegun(count) => self.gate.wait_begun(count),
            Move::Allocate => self.step(Step::Allocate),
            Move::HangUp => self.step(Step::HangUp(StreamId::new(1, 1))),
            Move::StopMaster => self.step(Step::StopMaster),
            Move::Finish => {
                self.finish();
                true
            }
        }
    }

    /// Plays a script, once the agent has reported,
    /// and returns how many moves of it went as they are to go before one didn't.
    fn plays(&mut self, script: &[Move]) -> usize {
        if !self.reports() {
            return 0;
        }
        let mut count = 0usize;
        for goes in script {
            if !self.goes(*goes) {
                break;
            }
            count = count.saturating_add(1);
        }
        count
    }

    /// Plays a script. Then it finishes the office, and is the one that is accepted after that.
    pub fn play(mut self, script: &[Move]) -> (Pass<KeptEntry, L>, usize) {
        let count = self.plays(script);
        self.finish();
        let _last = TcpStream::connect(self.rt, self.to);
        (self.pass, count)
    }
}
