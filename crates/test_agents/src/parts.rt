//! What the two threads of a test do, each with a seat of its own.

ghost use Rattle.std.specs.Prelude.{◌≡◌, []};

use crate::cabinets::{Flags, Held, Jammed, Shelf};
use crate::framework::{launch, stop};
use crate::offices::{OWNED, cpus, seat, wait_for_entries};
use cluster_core::{Keep, KeptEntry, Step, StepCause};
use desk_agents::{ActivityFault, Cabinet, CabinetFailures, Stopwatch, activity, ticker};
use desk_core::Running;
use desk_lock::{Office, Pass};
use messages::ExecutorState;
use names_core::AgentName;
use std::alloc::{AllocError, Global};
use std::sync::{Wait, ledger};
use std::thread;
use std::thread::Threads;
use std::time::Clock;

/// What a thread does.
#[derive(Drop)]
pub enum Part<'a> {
    /// An agent whose tasks run for one second, of which so many cpus are configured.
    Agent(AgentName, Shelf, CabinetFailures, u64),
    /// An agent whose cabinet can't be opened again for a while.
    Jammed(AgentName, Jammed, CabinetFailures),
    /// An agent whose saves wait for the other's.
    Held(AgentName, Held<'a>),
    /// A framework launches a task, the agent is stopped after it if so,
    /// and the agent's saves are opened. It finishes the office as a finisher does.
    Launcher {
        flags: &'a Flags,
        stops: bool,
        end: usize,
    },
    /// A ticker with a round each second.
    Ticker,
    /// It finishes the office once the history has so many entries,
    /// and after 20 seconds at the latest.
    Finisher(usize),
}

/// How a thread's part ended.
#[derive(Clone, Copy, Drop, PartialEq, Eq)]
pub enum End {
    /// The office is finished, or the agent isn't configured.
    Finished,
    Damaged,
    Cabinet,
    /// The saves of two agents were open at once.
    Overlapped,
    /// The history hasn't so many entries, or a step was refused.
    Late,
}

/// What a thread did.
#[derive(Drop)]
pub struct Played {
    /// A letter for each of its steps: P, C and D for Prepare, Commit and Deliver, B and A for a
    /// stop before and after a draft's save, T and O for a Tick and a round of offers, and S for a
    /// call that is sent.
    pub letters: Vec<u8>,
    /// A letter for each cause that it prepared: M for a mail, R and F for a task that runs and
    /// that has finished, A for what is sent again, S for a start, and T for one with a total.
    pub causes: Vec<u8>,
    /// The moments of its Ticks.
    pub moments: Vec<u32>,
    pub end: End,
}

fn letter(step: &Step) -> u8 {
    match step {
        Step::Prepare { .. } => b'P',
        Step::Commit(_) => b'C',
        Step::Deliver(_) => b'D',
        Step::StopAgent { keep, .. } => match keep {
            Keep::Before => b'B',
            Keep::After => b'A',
        },
        Step::Tick(_) => b'T',
        Step::Allocate => b'O',
        Step::Send { .. } => b'S',
        _ => b'?',
    }
}

fn cause_letter(cause: &StepCause) -> u8 {
    match cause {
        StepCause::Mail(_) => b'M',
        StepCause::Executor(_, ExecutorState::Running) => b'R',
        StepCause::Executor(_, ExecutorState::Finished) => b'F',
        StepCause::Executor(..) => b'?',
        StepCause::Again => b'A',
        StepCause::Start(None) => b'S',
        StepCause::Start(Some(_)) => b'T',
    }
}

pub fn played_from<L: ledger::Ledger>(
    alloc: Global,
    pass: &Pass<KeptEntry, L>,
    end: End,
) -> Result<Played, AllocError> {
    let (mut letters, mut causes) = (Vec::new(alloc), Vec::new(alloc));
    let mut moments = Vec::new(alloc);
    for receipt in pass.receipts() {
        let step = &receipt.entry.get().step;
        letters.push(letter(step))?;
        match step {
            Step::Tick(moment) => moments.push(*moment)?,
            Step::Prepare { cause, .. } => causes.push(cause_letter(cause))?,
            _ => {}
        }
    }
    Ok(Played {
        letters,
        causes,
        moments,
        end,
    })
}

pub fn end_of(fault: Option<ActivityFault<AllocError>>) -> End {
    match fault {
        None => End::Finished,
        Some(ActivityFault::Damaged) => End::Damaged,
        Some(ActivityFault::Cabinet(_)) => End::Cabinet,
    }
}

/// Launches a task and stops the agent if so,
/// and finishes the office once the history has so many entries.
fn lead<D: Running, L: ledger::Ledger, R: Wait + Clock>(
    rt: &R,
    alloc: Global,
    office: &Office<D, L>,
    pass: &mut Pass<KeptEntry, L>,
    flags: &Flags,
    stops: bool,
    count: usize,
) -> End {
    let mut there = launch(rt, alloc, office, pass).is_some();
    if there && stops {
        there = stop(rt, alloc, office, pass).is_some();
    }
    flags.open_second();
    there = there && wait_for_entries(rt, office, pass, count);
    office.finish(rt);
    if there { End::Finished } else { End::Late }
}

/// An agent that owns so many cpus works from a seat over a cabinet, until its thread ends.
fn work<D: Running, L: ledger::Ledger, R: Wait + Clock, C: Cabinet<Fault = AllocError>>(
    rt: &R,
    alloc: Global,
    office: &Office<D, L>,
    pass: Pass<KeptEntry, L>,
    agent: &AgentName,
    cabinet: &mut C,
    failures: CabinetFailures,
    amount: u64,
) -> Result<(Pass<KeptEntry, L>, End), AllocError>
    requires { pass.receipts ≡ [] }
{
    let total = cpus(alloc, amount)?;
    let (pass, fault) = activity(rt, alloc, office, pass, agent, cabinet, failures, 1, &total);
    Ok((pass, end_of(fault)))
}

fn overlapped<L: ledger::Ledger>(
    worked: Result<(Pass<KeptEntry, L>, End), AllocError>,
) -> Result<(Pass<KeptEntry, L>, End), AllocError> {
    match worked {
        Ok((pass, _)) => Ok((pass, End::Overlapped)),
        Err(fault) => Err(fault),
    }
}

/// Does a part from a seat, and returns the seat and how the part ended.
fn play_out<D: Running, L: ledger::Ledger, R: Wait + Clock>(
    rt: &R,
    alloc: Global,
    office: &Office<D, L>,
    mut pass: Pass<KeptEntry, L>,
    part: Part<'_>,
) -> Result<(Pass<KeptEntry, L>, End), AllocError>
    requires { pass.receipts ≡ [] }
{
    match part {
        Part::Agent(agent, mut shelf, failures, amount) => {
            work(
                rt, alloc, office, pass, &agent, &mut shelf, failures, amount,
            )
        }
        Part::Jammed(agent, mut jammed, failures) => {
            work(
                rt,
                alloc,
                office,
                pass,
                &agent,
                &mut jammed,
                failures,
                OWNED,
            )
        }
        Part::Held(agent, mut held) => {
            let fatal = CabinetFailures::Fatal;
            let worked = work(rt, alloc, office, pass, &agent, &mut held, fatal, OWNED);
            if held.has_overlapped {
                return overlapped(worked);
            }
            worked
        }
        Part::Ticker => {
            let mut seconds = Stopwatch::new(rt);
            let pass = ticker(rt, alloc, office, pass, &mut seconds, 1);
            Ok((pass, End::Finished))
        }
        Part::Launcher { flags, stops, end } => {
            let end = lead(rt, alloc, office, &mut pass, flags, stops, end);
            Ok((pass, end))
        }
        Part::Finisher(count) => {
            let there = wait_for_entries(rt, office, &pass, count);
            office.finish(rt);
            Ok((pass, if there { End::Finished } else { End::Late }))
        }
    }
}

/// Does a part from a seat, and returns what it did.
fn play_from<D: Running, L: ledger::Ledger, R: Wait + Clock>(
    rt: &R,
    alloc: Global,
    office: &Office<D, L>,
    pass: Pass<KeptEntry, L>,
    part: Part<'_>,
) -> Result<Played, AllocError>
    requires { pass.receipts ≡ [] }
{
    let (pass, end) = play_out(rt, alloc, office, pass, part)?;
    played_from(alloc, &pass, end)
}

/// Does a part, and returns what it did; None for want of memory.
/// Where it can't begin it finishes the office, so that the other ends too.
pub fn play<D: Running, L: ledger::Ledger, R: Wait + Clock>(
    rt: &R,
    alloc: Global,
    office: &Office<D, L>,
    part: Part<'_>,
) -> Option<Played> {
    match seat(rt, alloc, office) {
        Some(pass) => play_from(rt, alloc, office, pass, part).ok(),
        None => {
            office.finish(rt);
            None
        }
    }
}

/// Two threads, and what each did.
pub fn both<
    D: Running + Send + Sync,
    L: ledger::Ledger + Send + Sync,
    R: Threads + Wait + Clock + Sync,
>(
    rt: &R,
    alloc: Global,
    office: &Office<D, L>,
    one: Part<'_>,
    two: Part<'_>,
) -> (Option<Played>, Option<Played>) {
    thread::join(
        rt,
        || play(rt, alloc, office, one),
        || play(rt, alloc, office, two),
    )
}
