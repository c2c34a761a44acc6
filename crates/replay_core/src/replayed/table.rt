//! The table at the end of a history.

ghost use Rattle.std.specs.Prelude.{◌≡◌, slice_get, option_map, length, IfOk, IfSome};
ghost use Rattle.replay_core.specs.Tables.{agent_lines, table};
ghost use Rattle.replay_core.specs.Stories.{count, offered_now, records_now};

use crate::replayed::live::live;
use crate::replayed::numbers::raised;
use cluster_channels::Post;
use cluster_core::{Cluster, Record};
use messages::RecordParts;
use names_core::AgentName;
use quantity::Resources;
use std::alloc::{AllocError, Global};
use step_text::{agent_text, entries_text};

/// How many entries a history has, with the opening.
fn count<P: Post + Drop>(cluster: &Cluster<P>) -> Result<u64, AllocError>
    ensures { IfOk result (λ entries. entries ≡ count cluster.now.story) }
{
    raised(cluster.history().len() as u64, 1)
}

fn agent_count<P: Post + Drop>(cluster: &Cluster<P>) -> usize
    ensures { result ≡ length (records_now cluster.now.story) }
{
    cluster.agent_count()
}

/// The record of the agent at a place.
fn record_at<P: Post + Drop>(cluster: &Cluster<P>, place: usize) -> Option<&Record>
    ensures { option_map (λ d. d.now) result ≡ slice_get (records_now cluster.now.story) place }
{
    cluster.durable_at(place)
}

/// The sum of the current offers on an agent.
fn offered<P: Post + Drop>(
    alloc: Global,
    cluster: &Cluster<P>,
    name: &AgentName,
) -> Result<Resources, AllocError>
    ensures { IfOk result (λ sum. sum ≡ offered_now cluster.now.story name.now) }
{
    match cluster.offered_on(alloc, name) {
        Ok(Some(sum)) => Ok(sum),
        Ok(None) => Ok(Resources::new(alloc)),
        Err(_) => Err(AllocError),
    }
}

/// The lines of an agent.
fn agent_lines<P: Post + Drop>(
    alloc: Global,
    cluster: &Cluster<P>,
    durable: &RecordParts,
) -> Result<Vec<u8>, AllocError>
    ensures { IfOk result (λ text. text.items ≡ agent_lines cluster.now.story durable.now) }
{
    let offered = offered(alloc, cluster, &durable.name)?;
    let live = live(alloc, durable.tasks.as_slice())?;
    agent_text(alloc, durable, &offered, &live)
}

/// The lines of the agent at a place; none where there is no agent.
fn lines_at<P: Post + Drop>(
    alloc: Global,
    cluster: &Cluster<P>,
    place: usize,
) -> Result<Vec<u8>, AllocError>
    ensures { IfOk result (λ text. IfSome (slice_get (records_now cluster.now.story) place)
        (λ d. text.items ≡ agent_lines cluster.now.story d)) }
{
    match record_at(cluster, place) {
        Some(record) => agent_lines(alloc, cluster, record.parts()),
        None => Ok(Vec::new(alloc)),
    }
}

/// The table at the end of a cluster's history: each agent with its tasks,
/// in the order of their names, and the number of entries.
pub fn end_table<P: Post + Drop>(alloc: Global, cluster: &Cluster<P>) -> Result<Vec<u8>, AllocError>
    ensures { IfOk result (λ text. text.items ≡ table cluster.now.story) }
{
    let mut text = Vec::new(alloc);
    for place in 0..agent_count(cluster) {
        text.extend_from_slice(&lines_at(alloc, cluster, place)?)?;
    }
    text.extend_from_slice(&entries_text(alloc, count(cluster)?)?)?;
    Ok(text)
}
