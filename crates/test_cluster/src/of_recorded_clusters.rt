//! Two seats of one desk over a cluster of agent a1.

ghost use Rattle.std.specs.Prelude.{◌≡◌, [], IfSome};

use cluster_channels::Queues;
use cluster_core::{
    Cluster, Config, KeptEntry, RecordedCluster, Step, fresh_agents_open, fresh_records,
};
use desk_lock::{Desk, Office, Pass, Passes, Recorded};
use names_core::Run;
use std::alloc::Global;
use std::marker::Brand;
use std::sync::ledger::Blank;
use std::sync::{Wait, ledger};
use std::thread;
use std::thread::Threads;
use step_text::{read_config, read_step};

/// How much a pass saw of the history, and the numbers of its receipts.
type Seen = (u32, Vec<u32>);

/// The history's length at the close, the opening counted, and the seat of each entry since.
type Closed = (u32, Vec<u32>);

/// What the two passes have, and what is left at the close.
type Seats = (Option<Seen>, Option<Seen>, Option<Closed>);

fn one_agent(alloc: Global) -> Option<Config> {
    read_config(alloc, br#"{"agents":{"a1":{"cpus":4}}}"#).ok()
}

/// The agent answers the master's Hello, which has the number 1,
/// by a Report, which has the number 2.
const REPORTS: [&str; 3] = [
    r#"{"step":"prepare","agent":"a1","mail":1}"#,
    r#"{"step":"commit","agent":"a1"}"#,
    r#"{"step":"deliver","mail":2}"#,
];

const OFFERS: [&str; 1] = [r#"{"step":"allocate"}"#];

fn push_step(steps: &mut Vec<Step>, alloc: Global, line: &str) -> Option<()> {
    steps.push(read_step(alloc, line.as_bytes()).ok()?).ok()
}

fn push_steps(steps: &mut Vec<Step>, alloc: Global, lines: &[&str]) -> Option<()> {
    for line in lines {
        push_step(steps, alloc, line)?;
    }
    Some(())
}

fn steps_of(alloc: Global, lines: &[&str]) -> Option<Vec<Step>> {
    let mut steps = Vec::new(alloc);
    push_steps(&mut steps, alloc, lines)?;
    Some(steps)
}

// These have no clause, so that the proof of what follows them doesn't include the office. What is
// recorded is a parameter of theirs: at each exit of a function that owns an office the proof
// visits all that the office is made of, and of a parameter it knows nothing.

/// The pass of a new seat that took all steps.
fn pass_of<C: Recorded, L: ledger::Ledger, R: Wait>(
    rt: &R,
    alloc: Global,
    office: &Office<C, L>,
    steps: Vec<C::Step>,
) -> Option<Pass<C::Entry, L>> {
    let mut pass = office.open_seat(rt, alloc).ok()?;
    for step in steps {
        office.call(rt, alloc, &mut pass, step).ok()?;
    }
    Some(pass)
}

/// The passes of two seats that took these steps one after the other.
fn passes_of<C: Recorded, L: ledger::Ledger, R: Wait>(
    rt: &R,
    alloc: Global,
    office: &Office<C, L>,
    first: Vec<C::Step>,
    others: Vec<C::Step>,
) -> Option<(Pass<C::Entry, L>, Pass<C::Entry, L>)> {
    let one = pass_of(rt, alloc, office, first)?;
    let two = pass_of(rt, alloc, office, others)?;
    Some((one, two))
}

/// The passes of two seats that took these steps in two threads of a scope.
fn passes_at_once<L: ledger::Ledger + Send + Sync, R: Threads + Wait + Sync>(
    rt: &R,
    alloc: Global,
    office: &Office<RecordedCluster, L>,
    first: Vec<Step>,
    others: Vec<Step>,
) -> Option<(Pass<KeptEntry, L>, Pass<KeptEntry, L>)> {
    thread::scope(thread::scope_env(), rt, |scope| {
        let Ok(child) = scope.spawn(move || pass_of(rt, alloc, office, first)) else {
            return None;
        };
        let two = pass_of(rt, alloc, office, others);
        child.join(rt).zip(two)
    })
}

fn seen_by<G, L: ledger::Ledger>(alloc: Global, pass: &Pass<G, L>) -> Option<Seen> {
    let mut numbers = Vec::new(alloc);
    for receipt in pass.receipts() {
        numbers.push(receipt.number).ok()?;
    }
    Some((pass.seen(), numbers))
}

fn both<G: Drop, L: ledger::Ledger>(
    alloc: Global,
    one: Pass<G, L>,
    two: Pass<G, L>,
) -> Option<Passes<G, L>> {
    let mut passes = Passes::new(alloc);
    passes.push(one).ok()?;
    passes.push(two).ok()?;
    Some(passes)
}

fn closed<C: Recorded, L: ledger::Ledger>(
    alloc: Global,
    office: Office<C, L>,
    passes: Option<Passes<C::Entry, L>>,
) -> Option<Closed> {
    let Some(passes) = passes else {
        drop(office);
        return None;
    };
    match office.close(passes) {
        Ok(history) => {
            let (count, seats) = (history.len(), Vec::from_slice(alloc, history.seats()).ok());
            drop(history);
            Some((count, seats?))
        }
        Err(refused) => {
            drop(refused);
            None
        }
    }
}

/// What two seats have whose passes these are.
fn seats_of<C: Recorded, L: ledger::Ledger>(
    alloc: Global,
    office: Office<C, L>,
    passes: Option<(Pass<C::Entry, L>, Pass<C::Entry, L>)>,
) -> Option<Seats> {
    match passes {
        Some((one, two)) => {
            let (seen, other_seen) = (seen_by(alloc, &one), seen_by(alloc, &two));
            let closed = closed(alloc, office, both(alloc, one, two));
            Some((seen, other_seen, closed))
        }
        None => None,
    }
}

fn recorded(alloc: Global, config: Config) -> Option<RecordedCluster>
    ensures { IfSome result (λ recorded. recorded.story.entries ≡ []) }
{
    fresh_agents_open(&config.agents);
    let Ok(records) = fresh_records(alloc, &config.agents) else {
        return None;
    };
    match Cluster::<Queues>::open(alloc, config, records, Run::new(1)) {
        Ok(cluster) => Some(RecordedCluster::new(cluster)),
        Err(_) => None,
    }
}

/// What two seats have that took these steps, at once or one after the other.
fn two_seats<L: ledger::Ledger + Send + Sync, R: Threads + Wait + Sync>(
    rt: &R,
    alloc: Global,
    blank: Blank,
    config: Config,
    first: Vec<Step>,
    others: Vec<Step>,
    at_once: bool,
) -> Option<Seats>
    requires name { blank.name ≡ L.name }
    requires parts { (blank.parts ≡ L.parts) × (blank.parts ≡ 4294967296) }
{
    let desk = Desk::<_, L>::new(alloc, recorded(alloc, config)?, blank);
    let office = Office::new(desk);
    let passes = if at_once {
        passes_at_once(rt, alloc, &office, first, others)
    } else {
        passes_of(rt, alloc, &office, first, others)
    };
    seats_of(alloc, office, passes)
}

/// Whether the first three entries are the first seat's, and the fourth the second's.
fn have_their_entries(seats: &Option<Seats>) -> bool {
    match seats {
        Some((Some((4, one)), Some((5, two)), Some((5, seats)))) => {
            one.as_slice() == [1, 2, 3].as_slice()
                && two.as_slice() == [4].as_slice()
                && seats.as_slice() == [1, 1, 1, 2].as_slice()
        }
        _ => false,
    }
}

/// What two seats of an office of its own have.
fn seats_that_took<R: Threads + Wait + Sync>(
    rt: &R,
    alloc: Global,
    config: Config,
    first: Vec<Step>,
    others: Vec<Step>,
    at_once: bool,
) -> Option<Seats> {
    let blank = Blank::new(1 << 32);
    two_seats::<Brand, R>(rt, alloc, blank, config, first, others, at_once)
}

/// One seat takes the agent's report, and the other makes a round of offers then.
fn one_behind_the_other<R: Threads + Wait + Sync>(rt: &R, alloc: Global) -> Option<Seats> {
    let first = steps_of(alloc, &REPORTS)?;
    let others = steps_of(alloc, &OFFERS)?;
    match one_agent(alloc) {
        Some(config) => seats_that_took(rt, alloc, config, first, others, false),
        None => None,
    }
}

/// At the close each of two seats has its entries, and no other.
pub fn two_seats_have_their_entries<R: Threads + Wait + Sync>(rt: &R, alloc: Global) -> bool {
    have_their_entries(&one_behind_the_other(rt, alloc))
}

/// 100 steps, in which a second passes each time.
fn seconds(alloc: Global) -> Option<Vec<Step>> {
    let mut steps = Vec::new(alloc);
    for second in 1..=100u32 {
        steps.push(Step::Tick(second)).ok()?;
    }
    Some(steps)
}

/// 100 rounds of offers.
fn rounds(alloc: Global) -> Option<Vec<Step>> {
    let mut steps = Vec::new(alloc);
    for _ in 0..100u32 {
        steps.push(Step::Allocate).ok()?;
    }
    Some(steps)
}

/// Whether each of two seats has 100 receipts, and the close accounts for the entries of both.
fn have_100_entries_each(seats: &Option<Seats>) -> bool {
    match seats {
        Some((Some((_, one)), Some((_, two)), Some((201, seats)))) => {
            one.len() == 100 && two.len() == 100 && seats.len() == 200
        }
        _ => false,
    }
}

/// The master's time passes in one thread, and rounds of offers are made in the other.
fn both_at_once<R: Threads + Wait + Sync>(rt: &R, alloc: Global) -> Option<Seats> {
    let first = seconds(alloc)?;
    let others = rounds(alloc)?;
    match one_agent(alloc) {
        Some(config) => seats_that_took(rt, alloc, config, first, others, true),
        None => None,
    }
}

/// The same of two threads that each have 100 calls answered at once.
pub fn two_threads_of_100_calls<R: Threads + Wait + Sync>(rt: &R, alloc: Global) -> bool {
    have_100_entries_each(&both_at_once(rt, alloc))
}
