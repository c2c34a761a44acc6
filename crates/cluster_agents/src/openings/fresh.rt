//! Agents that never ran.

ghost use Rattle.std.specs.Prelude.{◌≡◌, ◌<◌, IfOk, ℕ};
ghost use Rattle.cluster_agents.specs.Fresh.{fresh_record, fresh_records};
ghost use Rattle.cluster_agents.specs.Records.{AreRecordsOf, in_order};
ghost use Rattle.cluster_laws.specs.Premises.{AreRecorded};
ghost use Rattle.cluster_model.specs.Openings.{GoodOpening};

use agent_core::Record;
use master_agents::{ConfiguredAgent, ConfiguredAgents};
use std::alloc::{AllocError, Global};
use values::Plain;

/// A cluster may be opened in any run over configured agents that never ran:
/// their records are those of the configuration, and in its order.
pub fn fresh_agents_open(config: &ConfiguredAgents)
    ensures good { (run : ℕ) → 0 < run → GoodOpening run (fresh_records config.now) }
    ensures recorded { AreRecorded (fresh_records config.now) }
    ensures records { AreRecordsOf config.now (fresh_records config.now) }
    ensures order { in_order config.now (fresh_records config.now) ≡ fresh_records config.now }
{
    let _agents = config.agents();
}

/// The record of a configured agent that never ran.
fn fresh_record(alloc: Global, agent: &ConfiguredAgent) -> Result<Record, AllocError>
    ensures { IfOk result (λ durable. durable ≡ fresh_record agent.now) }
{
    let total = agent.total.copy()?;
    Ok(Record::fresh(alloc, agent.name.copy()?, total))
}

/// The records of configured agents that never ran, in the order of their names.
pub fn fresh_records(alloc: Global, config: &ConfiguredAgents) -> Result<Vec<Record>, AllocError>
    ensures { IfOk result (λ records. records.items ≡ fresh_records config.now) }
{
    let agents = config.agents();
    let mut records = Vec::with_capacity(alloc, agents.len())?;
    for agent in agents {
        records.push(fresh_record(alloc, agent)?)?;
    }
    Ok(records)
}
