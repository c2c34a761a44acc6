//! A framework that launches a task on the one agent.

use crate::offices::wait_for_entries;
use cluster_core::{Keep, KeptEntry, Step};
use desk_core::Running;
use desk_lock::{Office, Pass};
use messages::{Call, TaskInfo};
use names_core::{AgentName, FrameworkId, OfferId, RoleName, StreamId, TaskName};
use quantity::Resources;
use std::alloc::Global;
use std::sync::{Wait, ledger};
use std::time::Clock;
use values::{Listed, Shared};

fn subscribe(alloc: Global) -> Option<Step> {
    let call = Call::Subscribe {
        framework: None,
        role: RoleName::from_text(alloc, "*").ok()?,
    };
    Some(Step::Send {
        stream: None,
        call: Shared::new(alloc, call).ok()?,
    })
}

/// Task t1 of 1 cpu, on agent a1.
fn task(alloc: Global) -> Option<TaskInfo> {
    let mut resources = Resources::new(alloc);
    resources.add(alloc, "cpus", 1).ok()?;
    Some(TaskInfo {
        name: TaskName::from_text(alloc, "t1").ok()?,
        agent: AgentName::from_text(alloc, "a1").ok()?,
        resources,
    })
}

/// Framework F1-1 launches a task on its first offer.
fn accept(alloc: Global) -> Option<Step> {
    let mut offers = Listed::new(alloc);
    offers.push(OfferId::new(1, 1)).ok()?;
    let mut tasks = Listed::new(alloc);
    tasks.push(task(alloc)?).ok()?;
    let call = Call::Accept {
        framework: FrameworkId::new(1, 1),
        offers,
        tasks,
        refuse_seconds: 0,
    };
    Some(Step::Send {
        stream: Some(StreamId::new(1, 1)),
        call: Shared::new(alloc, call).ok()?,
    })
}

/// Takes a step once the history has so many entries;
/// None where it hasn't in time, or the step is refused.
fn take_at<D: Running, L: ledger::Ledger, R: Wait + Clock>(
    rt: &R,
    alloc: Global,
    office: &Office<D, L>,
    pass: &mut Pass<KeptEntry, L>,
    count: usize,
    step: Step,
) -> Option<()> {
    if !wait_for_entries(rt, office, pass, count) {
        return None;
    }
    match office.call(rt, alloc, pass, step) {
        Ok(_) => Some(()),
        Err(_) => None,
    }
}

/// Once the agent has answered the greeting, by 3 entries, a framework subscribes by call 3,
/// is offered the agent, and launches a task by call 4. The launch is sent to the agent as mail 5.
pub fn launch<D: Running, L: ledger::Ledger, R: Wait + Clock>(
    rt: &R,
    alloc: Global,
    office: &Office<D, L>,
    pass: &mut Pass<KeptEntry, L>,
) -> Option<()> {
    take_at(rt, alloc, office, pass, 3, subscribe(alloc)?)?;
    take_at(rt, alloc, office, pass, 4, Step::Deliver(3))?;
    take_at(rt, alloc, office, pass, 5, Step::Allocate)?;
    take_at(rt, alloc, office, pass, 6, accept(alloc)?)?;
    take_at(rt, alloc, office, pass, 7, Step::Deliver(4))
}

/// Once the agent has prepared the launch, by 9 entries, it is stopped.
pub fn stop<D: Running, L: ledger::Ledger, R: Wait + Clock>(
    rt: &R,
    alloc: Global,
    office: &Office<D, L>,
    pass: &mut Pass<KeptEntry, L>,
) -> Option<()> {
    let step = Step::StopAgent {
        agent: AgentName::from_text(alloc, "a1").ok()?,
        keep: Keep::Before,
    };
    take_at(rt, alloc, office, pass, 9, step)
}
