//! An agent that launches a task: what it reports of the task,
//! and a stop while the draft of the launch is saved.

ghost use Rattle.std.specs.Prelude.{◌≡◌};

use crate::cabinets::{Flags, Held};
use crate::offices::{PARTS, falling_office, named, office};
use crate::parts::{End, Part, Played, both};
use desk_core::Running;
use desk_lock::Office;
use std::alloc::Global;
use std::marker::Brand;
use std::sync::ledger::Blank;
use std::sync::{Wait, ledger};
use std::thread::Threads;
use std::time::Clock;

/// What an agent does that holds no save before so many,
/// and what the framework does that launches a task there.
fn launched_at<
    D: Running + Send + Sync,
    L: ledger::Ledger + Send + Sync,
    R: Threads + Wait + Clock + Sync,
>(
    rt: &R,
    alloc: Global,
    office: &Office<D, L>,
    passes: u32,
    stops: bool,
    end: usize,
) -> Option<(Option<Played>, Option<Played>)> {
    let flags = Flags::new();
    let one = Part::Held(named(alloc, "a1")?, Held::behind(&flags, passes));
    let two = Part::Launcher {
        flags: &flags,
        stops,
        end,
    };
    Some(both(rt, alloc, office, one, two))
}

fn launched<L: ledger::Ledger + Send + Sync, R: Threads + Wait + Clock + Sync>(
    rt: &R,
    alloc: Global,
    blank: Blank,
    passes: u32,
    stops: bool,
    end: usize,
) -> Option<(Option<Played>, Option<Played>)>
    requires name { blank.name ≡ L.name }
    requires parts { (blank.parts ≡ L.parts) × (blank.parts ≡ 4294967296) }
{
    match office::<L>(alloc, blank, &["a1"]) {
        Some(office) => launched_at(rt, alloc, &office, passes, stops, end),
        None => None,
    }
}

/// The same in an office of its own.
fn after_launch<R: Threads + Wait + Clock + Sync>(
    rt: &R,
    alloc: Global,
    passes: u32,
    stops: bool,
    end: usize,
) -> Option<(Option<Played>, Option<Played>)> {
    launched::<Brand, R>(rt, alloc, Blank::new(PARTS), passes, stops, end)
}

/// What the two do where the agent is down once the history has so many entries.
fn fallen<L: ledger::Ledger + Send + Sync, R: Threads + Wait + Clock + Sync>(
    rt: &R,
    alloc: Global,
    blank: Blank,
    falls_at: u32,
    end: usize,
) -> Option<(Option<Played>, Option<Played>)>
    requires name { blank.name ≡ L.name }
    requires parts { (blank.parts ≡ L.parts) × (blank.parts ≡ 4294967296) }
{
    match falling_office::<L>(alloc, blank, &["a1"], falls_at) {
        Some(office) => launched_at(rt, alloc, &office, u32::MAX, false, end),
        None => None,
    }
}

/// The same in an office of its own.
fn after_fall<R: Threads + Wait + Clock + Sync>(
    rt: &R,
    alloc: Global,
    falls_at: u32,
    end: usize,
) -> Option<(Option<Played>, Option<Played>)> {
    fallen::<Brand, R>(rt, alloc, Blank::new(PARTS), falls_at, end)
}

fn goes_on(played: &Option<(Option<Played>, Option<Played>)>, steps: &[u8], causes: &[u8]) -> bool {
    match played {
        Some((Some(agent), Some(framework))) => {
            framework.end == End::Finished
                && framework.letters.as_slice() == b"SDOSD".as_slice()
                && agent.letters.as_slice().starts_with(steps)
                && agent.causes.as_slice().starts_with(causes)
        }
        _ => false,
    }
}

fn sends_again(played: &Option<(Option<Played>, Option<Played>)>) -> bool {
    match played {
        Some((Some(agent), Some(framework))) => {
            framework.end == End::Finished && agent.causes.as_slice().starts_with(b"MMRAAF")
        }
        _ => false,
    }
}

fn comes_up(played: &Option<(Option<Played>, Option<Played>)>) -> bool {
    match played {
        Some((Some(agent), Some(framework))) => {
            agent.end == End::Overlapped
                && framework.end == End::Finished
                && framework.letters.as_slice() == b"SDOSDB".as_slice()
                && agent.letters.as_slice().starts_with(b"PCDPBPCD")
                && agent.causes.as_slice().starts_with(b"MMS")
        }
        _ => false,
    }
}

/// The agent receives the greeting and the launch, reports that the task runs, sends that again as
/// long as nobody acknowledges it, and reports the end a second after it saw the task run, again
/// after what isn't acknowledged. Each of the six causes makes three entries, Prepare, Commit and
/// Deliver, and the framework has five.
pub fn what_is_unacknowledged_goes_first<R: Threads + Wait + Clock + Sync>(
    rt: &R,
    alloc: Global,
) -> bool {
    sends_again(&after_launch(rt, alloc, u32::MAX, false, 23))
}

/// The agent is stopped while its second save is held, so its Commit is refused by C5: it stops,
/// and starts. The two have all entries of the history, and nobody commits the launch's draft.
pub fn a_stop_in_a_save<R: Threads + Wait + Clock + Sync>(rt: &R, alloc: Global) -> bool {
    comes_up(&after_launch(rt, alloc, 1, true, 14))
}

/// The agent is down once it has prepared the launch, so its Commit is refused by C3: it is stopped,
/// starts, and goes on.
pub fn an_agent_down_at_a_commit<R: Threads + Wait + Clock + Sync>(rt: &R, alloc: Global) -> bool {
    goes_on(&after_fall(rt, alloc, 9, 13), b"PCDPBPCD", b"MMS")
}

/// The agent is down once the launch is sent to it, so its Prepare is refused by C3.
pub fn an_agent_down_at_a_prepare<R: Threads + Wait + Clock + Sync>(rt: &R, alloc: Global) -> bool {
    goes_on(&after_fall(rt, alloc, 8, 12), b"PCDBPCD", b"MS")
}
