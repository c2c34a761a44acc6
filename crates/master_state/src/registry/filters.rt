//! Filters: resources of an agent that a framework refused for some seconds.

ghost use Rattle.std.specs.Prelude.{◌≡◌, ◌<◌, ℕ, true, false, filter, not, bytes_eq, OnOk};
ghost use Rattle.std.specs.List.{list_any};
ghost use Rattle.cluster_model.specs.Masters.{add_filter, clear_on, count_on, drop_oldest};
ghost use Rattle.cluster_model.specs.Rounds.{may_be_offered, refuses};

use messages::{Filter, Framework};
use names_core::AgentName;
use quantity::Resources;
use std::alloc::{AllocError, Global};
use values::{Listed, Plain};

/// As many filters as one framework has on an agent.
const MOST_FILTERS: usize = 64;

fn count_on(filters: &[Filter], agent: &AgentName) -> usize
    ensures { result ≡ count_on agent.now filters.now }
{
    let mut count = 0;
    for filter in filters {
        if filter.agent.is(agent) {
            count += 1;
        }
    }
    count
}

fn drop_oldest(filters: &mut Listed<Filter>, agent: &AgentName)
    ensures { filters.new ≡ drop_oldest agent.now filters.old }
{
    for i in 0..filters.len() {
        if filters.as_slice()[i].agent.is(agent) {
            let _oldest = filters.remove(i);
            return;
        }
    }
}

/// A filter of what was refused, where there is something and the seconds aren't 0.
/// The 65th on an agent takes the place of the oldest.
pub fn add_filter(
    filters: &mut Listed<Filter>,
    alloc: Global,
    now: u32,
    seconds: u32,
    agent: &AgentName,
    refused: Resources,
) -> Result<(), AllocError>
    ensures { OnOk result (filters.new ≡ add_filter now seconds filters.old agent.now refused) }
{
    if refused.is_empty() || seconds == 0 {
        return Ok(());
    }
    let agent_name = agent.copy()?;
    if count_on(filters.as_slice(), agent) >= MOST_FILTERS {
        drop_oldest(filters, agent);
    }
    filters.push(Filter {
        agent: agent_name,
        made: now,
        seconds,
        refused,
    })
}

fn clear_in(filters: &mut Listed<Filter>, agent: &AgentName)
    ensures { filters.new ≡ filter (λ x. not (bytes_eq x.agent agent.now)) filters.old }
{
    let mut i = 0;
    while i < filters.len() {
        if filters.as_slice()[i].agent.is(agent) {
            let _cleared = filters.remove(i);
        } else {
            i += 1;
        }
    }
}

/// Without its filters on this agent.
pub fn clear_on(framework: &mut Framework, agent: &AgentName)
    ensures { framework.new ≡ clear_on agent.now framework.old }
{
    clear_in(&mut framework.filters, agent);
}

/// Whether a filter runs at this moment, and refuses what is free on an agent: it is of the agent,
/// and covers it.
pub fn refuses(filter: &Filter, now: u32, agent: &AgentName, free: &Resources) -> bool
    ensures { result ≡ refuses now agent.now free.now filter.now }
{
    filter.agent.is(agent)
        && u64::from(now) < u64::from(filter.made) + u64::from(filter.seconds)
        && filter.refused.covers(free)
}

/// Before which moment, in seconds, a filter of these refuses what is free on an agent.
fn filtered_until(filters: &[Filter], agent: &AgentName, free: &Resources) -> u64
    ensures { (now : ℕ) → now < result
        → list_any (refuses now agent.now free.now) filters.now ≡ true }
{
    let mut until = 0;
    for filter in filters {
        let end = u64::from(filter.made) + u64::from(filter.seconds);
        if until < end && filter.agent.is(agent) && filter.refused.covers(free) {
            until = end;
        }
    }
    until
}

/// A moment, in seconds, before which a framework may not be offered what is free on an agent, as
/// long as it doesn't change.
pub fn refused_until(framework: &Framework, agent: &AgentName, free: &Resources) -> u64
    ensures { (now : ℕ) → now < result
        → may_be_offered now agent.now free.now framework.now ≡ false }
{
    if framework.stream.is_none() || framework.suppressed {
        return u64::MAX;
    }
    filtered_until(framework.filters.as_slice(), agent, free)
}
