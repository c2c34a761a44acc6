//! An agent whose cabinet can't be opened again for a while, after the save of what it has to say of
//! a task that runs.

ghost use Rattle.std.specs.Prelude.{◌≡◌};

use crate::cabinets::{Flags, Jammed};
use crate::offices::{PARTS, named, office};
use crate::parts::{End, Part, Played, both};
use desk_agents::CabinetFailures;
use desk_core::Running;
use desk_lock::Office;
use std::alloc::Global;
use std::marker::Brand;
use std::sync::ledger::Blank;
use std::sync::{Wait, ledger};
use std::thread::Threads;
use std::time::Clock;

/// What an agent does whose third save fails, and whose cabinet can't be opened twice then,
/// and what the framework does that launches a task there.
fn jammed_at<
    D: Running + Send + Sync,
    L: ledger::Ledger + Send + Sync,
    R: Threads + Wait + Clock + Sync,
>(
    rt: &R,
    alloc: Global,
    office: &Office<D, L>,
    failures: CabinetFailures,
    end: usize,
) -> Option<(Option<Played>, Option<Played>)> {
    let flags = Flags::new();
    let one = Part::Jammed(named(alloc, "a1")?, Jammed::new(2, 2), failures);
    let two = Part::Launcher {
        flags: &flags,
        stops: false,
        end,
    };
    Some(both(rt, alloc, office, one, two))
}

fn jammed<L: ledger::Ledger + Send + Sync, R: Threads + Wait + Clock + Sync>(
    rt: &R,
    alloc: Global,
    blank: Blank,
    failures: CabinetFailures,
    end: usize,
) -> Option<(Option<Played>, Option<Played>)>
    requires name { blank.name ≡ L.name }
    requires parts { (blank.parts ≡ L.parts) × (blank.parts ≡ 4294967296) }
{
    match office::<L>(alloc, blank, &["a1"]) {
        Some(office) => jammed_at(rt, alloc, &office, failures, end),
        None => None,
    }
}

/// The same in an office of its own.
fn after_jam<R: Threads + Wait + Clock + Sync>(
    rt: &R,
    alloc: Global,
    failures: CabinetFailures,
    end: usize,
) -> Option<(Option<Played>, Option<Played>)> {
    jammed::<Brand, R>(rt, alloc, Blank::new(PARTS), failures, end)
}

fn goes_on(played: &Option<(Option<Played>, Option<Played>)>) -> bool {
    match played {
        Some((Some(agent), Some(framework))) => {
            agent.end == End::Finished
                && framework.end == End::Finished
                && agent.letters.as_slice().starts_with(b"PCDPCDPBPCD")
                && agent.causes.as_slice().starts_with(b"MMRSR")
                && agent.causes.as_slice().contains(&b'F')
        }
        _ => false,
    }
}

fn ends(played: &Option<(Option<Played>, Option<Played>)>) -> bool {
    match played {
        Some((Some(agent), Some(framework))) => {
            agent.end == End::Cabinet
                && framework.end == End::Finished
                && agent.letters.as_slice() == b"PCDPCDP".as_slice()
        }
        _ => false,
    }
}

/// Where failures are borne the agent comes up over the record before the save, in which its task
/// is, starts, and reports that the task runs and that it has finished. Nothing of it is an entry
/// while its cabinet can't be opened.
pub fn an_outage_is_borne<R: Threads + Wait + Clock + Sync>(rt: &R, alloc: Global) -> bool {
    goes_on(&after_jam(rt, alloc, CabinetFailures::Borne, 34))
}

/// Where they are fatal the activity ends at the first opening that fails, and finishes the office.
pub fn an_outage_is_fatal<R: Threads + Wait + Clock + Sync>(rt: &R, alloc: Global) -> bool {
    ends(&after_jam(rt, alloc, CabinetFailures::Fatal, 100))
}
