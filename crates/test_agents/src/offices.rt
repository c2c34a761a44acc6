//! Offices over a cluster of agents of 4 cpus.

ghost use Rattle.std.specs.Prelude.{◌≡◌, [], IfSome};

use crate::falls::FallingCluster;
use cluster_channels::Queues;
use cluster_core::{Cluster, Config, KeptEntry, RecordedCluster, fresh_agents_open, fresh_records};
use desk_core::{Awaited, Running};
use desk_lock::{Desk, Office, Pass, Waited};
use master_core::ConfiguredAgents;
use names_core::{AgentName, Run, Weights};
use quantity::Resources;
use std::alloc::{AllocError, Global};
use std::sync::ledger::Blank;
use std::sync::{Wait, ledger};
use std::thread;
use std::time::{Clock, Duration};

/// What an agent owns.
pub const OWNED: u64 = 4;

/// One part for each seat, and one for the desk.
pub const PARTS: u64 = 1 << 32;

pub fn named(alloc: Global, name: &str) -> Option<AgentName> {
    AgentName::from_text(alloc, name).ok()
}

pub fn cpus(alloc: Global, amount: u64) -> Result<Resources, AllocError> {
    let mut cpus = Resources::new(alloc);
    match cpus.add(alloc, "cpus", amount) {
        Ok(()) => Ok(cpus),
        Err(_) => Err(AllocError),
    }
}

fn add_agent(agents: &mut ConfiguredAgents, alloc: Global, name: &str) -> Option<()> {
    let name = named(alloc, name)?;
    agents.add(name, cpus(alloc, OWNED).ok()?).ok()
}

fn add_agents(agents: &mut ConfiguredAgents, alloc: Global, names: &[&str]) -> Option<()> {
    for name in names {
        add_agent(agents, alloc, name)?;
    }
    Some(())
}

/// Agents of these names, of 4 cpus each.
fn config(alloc: Global, names: &[&str]) -> Option<Config> {
    let mut agents = ConfiguredAgents::new(alloc);
    let weights = Weights::new(alloc);
    match add_agents(&mut agents, alloc, names) {
        Some(()) => Some(Config { agents, weights }),
        None => None,
    }
}

fn recorded(alloc: Global, config: Config) -> Option<RecordedCluster>
    ensures { IfSome result (λ recorded. recorded.story.entries ≡ []) }
{
    fresh_agents_open(&config.agents);
    let Ok(records) = fresh_records(alloc, &config.agents) else {
        return None;
    };
    match Cluster::<Queues>::open(alloc, config, records, Run::new(1)) {
        Ok(cluster) => Some(RecordedCluster::new(cluster)),
        Err(_) => None,
    }
}

fn recorded_of(alloc: Global, names: &[&str]) -> Option<RecordedCluster>
    ensures { IfSome result (λ recorded. recorded.story.entries ≡ []) }
{
    match config(alloc, names) {
        Some(config) => recorded(alloc, config),
        None => None,
    }
}

/// An office over agents of these names, to each of which the opening sends a Hello.
pub fn office<L: ledger::Ledger>(
    alloc: Global,
    blank: Blank,
    names: &[&str],
) -> Option<Office<RecordedCluster, L>>
    requires name { blank.name ≡ L.name }
    requires parts { (blank.parts ≡ L.parts) × (blank.parts ≡ 4294967296) }
{
    match recorded_of(alloc, names) {
        Some(recorded) => Some(Office::new(Desk::<_, L>::new(alloc, recorded, blank))),
        None => None,
    }
}

/// The same, whose agents are down once the history has so many entries.
pub fn falling_office<L: ledger::Ledger>(
    alloc: Global,
    blank: Blank,
    names: &[&str],
    falls_at: u32,
) -> Option<Office<FallingCluster, L>>
    requires name { blank.name ≡ L.name }
    requires parts { (blank.parts ≡ L.parts) × (blank.parts ≡ 4294967296) }
{
    match recorded_of(alloc, names) {
        Some(recorded) => {
            let falling = FallingCluster::new(recorded, falls_at);
            Some(Office::new(Desk::<_, L>::new(alloc, falling, blank)))
        }
        None => None,
    }
}

pub fn seat<D: Running, L: ledger::Ledger, R: Wait>(
    rt: &R,
    alloc: Global,
    office: &Office<D, L>,
) -> Option<Pass<KeptEntry, L>>
    ensures { IfSome result (λ pass. pass.receipts ≡ []) }
{
    office.open_seat(rt, alloc).ok()
}

/// Whether the history has so many entries, or the office is finished.
fn has_entries<D: Running, L: ledger::Ledger, R: Wait + Clock>(
    rt: &R,
    office: &Office<D, L>,
    pass: &Pass<KeptEntry, L>,
    count: usize,
) -> bool {
    let look = |recorded: &D| {
        if (recorded.len() as usize) < count {
            Ok(None)
        } else {
            Ok(Some(()))
        }
    };
    match office.wait_for(rt, pass, Awaited::time(), Duration::ZERO, look) {
        Ok(Waited::Found(()) | Waited::Finished) => true,
        _ => false,
    }
}

/// Waits until the history has so many entries or the office is finished, for 20 seconds at most.
pub fn wait_for_entries<D: Running, L: ledger::Ledger, R: Wait + Clock>(
    rt: &R,
    office: &Office<D, L>,
    pass: &Pass<KeptEntry, L>,
    count: usize,
) -> bool {
    for _ in 0..200u32 {
        if has_entries(rt, office, pass, count) {
            return true;
        }
        thread::sleep(rt, Duration::from_millis(100));
    }
    false
}
