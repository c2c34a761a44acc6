//! An agent whose record a keeper keeps,
//! over files in memory that stop while the draft of a launch is saved.

ghost use Rattle.std.specs.Prelude.{◌≡◌, []};

use crate::cabinets::Flags;
use crate::offices::{OWNED, PARTS, cpus, named, office, seat};
use crate::parts::{End, Part, Played, end_of, play, played_from};
use crate::stores::{MemoryStore, StopAt};
use cluster_core::KeptEntry;
use desk_agents::{CabinetFailures, activity};
use desk_core::Running;
use desk_lock::{Office, Pass};
use names_core::AgentName;
use quantity::Resources;
use std::alloc::Global;
use std::marker::Brand;
use std::sync::ledger::Blank;
use std::sync::{Wait, ledger};
use std::thread;
use std::thread::Threads;
use std::time::Clock;
use test_store::calls_of;

/// What an agent did, and for each save the letter of the step that was due after it.
#[derive(Drop)]
struct Stored {
    played: Played,
    due: Vec<u8>,
}

/// How many entries there are once the step after the launch's Prepare is taken:
/// three of the greeting, five of the framework, and these two.
const ENTRIES: usize = 10;

fn stored_from<D: Running, L: ledger::Ledger, R: Wait + Clock>(
    rt: &R,
    alloc: Global,
    office: &Office<D, L>,
    pass: Pass<KeptEntry, L>,
    agent: &AgentName,
    total: &Resources,
    stop: StopAt,
) -> Option<Stored>
    requires { pass.receipts ≡ [] }
{
    let mut store = MemoryStore::new(alloc, stop);
    let fatal = CabinetFailures::Fatal;
    let (pass, fault) = activity(rt, alloc, office, pass, agent, &mut store, fatal, 1, total);
    match played_from(alloc, &pass, end_of(fault)) {
        Ok(played) => Some(Stored {
            played,
            due: store.into_due(),
        }),
        Err(_) => None,
    }
}

fn stored_at<D: Running, L: ledger::Ledger, R: Wait + Clock>(
    rt: &R,
    alloc: Global,
    office: &Office<D, L>,
    stop: StopAt,
) -> Option<Stored> {
    let agent = named(alloc, "a1")?;
    let total = cpus(alloc, OWNED).ok()?;
    match seat(rt, alloc, office) {
        Some(pass) => stored_from(rt, alloc, office, pass, &agent, &total, stop),
        None => None,
    }
}

/// What the agent does whose store stops there. Where it can't begin it finishes the office,
/// so that the framework ends too.
fn stored_or_finished<D: Running, L: ledger::Ledger, R: Wait + Clock>(
    rt: &R,
    alloc: Global,
    office: &Office<D, L>,
    stop: StopAt,
) -> Option<Stored> {
    let stored = stored_at(rt, alloc, office, stop);
    if stored.is_none() {
        office.finish(rt);
    }
    stored
}

/// What the agent does while a framework launches a task on it.
fn launched<
    D: Running + Send + Sync,
    L: ledger::Ledger + Send + Sync,
    R: Threads + Wait + Clock + Sync,
>(rt: &R, alloc: Global, office: &Office<D, L>, stop: StopAt) -> (Option<Stored>, Option<Played>) {
    let flags = Flags::new();
    let launcher = Part::Launcher {
        flags: &flags,
        stops: false,
        end: ENTRIES,
    };
    thread::join(
        rt,
        || stored_or_finished(rt, alloc, office, stop),
        || play(rt, alloc, office, launcher),
    )
}

fn in_time(stored: Option<Stored>, launcher: Option<Played>) -> Option<Stored> {
    match launcher {
        Some(launcher) if launcher.end == End::Finished => stored,
        _ => None,
    }
}

fn launch_in<L: ledger::Ledger + Send + Sync, R: Threads + Wait + Clock + Sync>(
    rt: &R,
    alloc: Global,
    blank: Blank,
    stop: StopAt,
) -> Option<Stored>
    requires name { blank.name ≡ L.name }
    requires parts { (blank.parts ≡ L.parts) × (blank.parts ≡ 4294967296) }
{
    match office::<L>(alloc, blank, &["a1"]) {
        Some(office) => {
            let (stored, launcher) = launched(rt, alloc, &office, stop);
            in_time(stored, launcher)
        }
        None => None,
    }
}

/// The same in an office of its own.
fn launch_with<R: Threads + Wait + Clock + Sync>(
    rt: &R,
    alloc: Global,
    stop: StopAt,
) -> Option<Stored> {
    launch_in::<Brand, R>(rt, alloc, Blank::new(PARTS), stop)
}

/// The letter of the step that was due after the launch's Prepare, where that step was taken
/// there: the greeting's Prepare, Commit and Deliver come before. None where another was.
fn taken_as_due(stored: &Stored) -> Option<u8> {
    let due = stored.due.as_slice().get(1)?;
    let letters = stored.played.letters.as_slice();
    let is_taken = letters.starts_with(b"PCDP") && letters.get(4) == Some(due);
    if is_taken && stored.played.end == End::Finished {
        Some(*due)
    } else {
        None
    }
}

/// The same of a launch whose file of the store stops after so many calls.
fn taken_after<R: Threads + Wait + Clock + Sync>(
    rt: &R,
    alloc: Global,
    is_journal: bool,
    is_lossy: bool,
    calls: u64,
) -> Option<u8> {
    let stop = StopAt {
        saves: 1,
        calls: calls_of(is_journal, calls),
        is_lossy,
    };
    match launch_with(rt, alloc, stop) {
        Some(stored) => taken_as_due(&stored),
        None => None,
    }
}

/// How often the agent was stopped before the save, and how often after it, as was due, with a file
/// that stops at each of its calls in turn, until the save is kept. None where another step was
/// taken than the one that was due, or the file always stopped.
fn stops_from<R: Threads + Wait + Clock + Sync>(
    rt: &R,
    alloc: Global,
    is_journal: bool,
    is_lossy: bool,
) -> Option<(u32, u32)> {
    let (mut before, mut after) = (0_u32, 0_u32);
    for calls in 0..100_u64 {
        match taken_after(rt, alloc, is_journal, is_lossy, calls)? {
            b'B' => before = before.saturating_add(1),
            b'A' => after = after.saturating_add(1),
            _ => return Some((before, after)),
        }
    }
    None
}

/// The journal's file stops at each call while a launch's draft is saved. Where a stop leaves all
/// that was written, the draft's record is kept if the stop comes once that is in the journal,
/// before the save is answered.
pub fn a_journal_stops_in_a_launch<R: Threads + Wait + Clock + Sync>(
    rt: &R,
    alloc: Global,
    is_lossy: bool,
) -> bool {
    match stops_from(rt, alloc, true, is_lossy) {
        Some((before, after)) => before > 0 && (is_lossy || after > 0),
        None => false,
    }
}

/// The database's file stops at each call while a launch's draft is saved.
/// No record is kept there before the journal has it.
pub fn a_database_file_stops_in_a_launch<R: Threads + Wait + Clock + Sync>(
    rt: &R,
    alloc: Global,
    is_lossy: bool,
) -> bool {
    match stops_from(rt, alloc, false, is_lossy) {
        Some((before, _)) => before > 0,
        None => false,
    }
}
