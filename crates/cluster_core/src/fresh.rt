//! Clusters of agents that never ran.

ghost use Rattle.std.specs.Prelude.{◌≡◌, [], IfOk, IfErr};
ghost use Rattle.cluster_openings.specs.Fresh.{fresh_records};
ghost use Rattle.cluster_steps.specs.declared.fault.ClusterFault.TheVariants.{OutOfMemory};

use crate::cluster::Cluster;
use agent_sides::Config;
use cluster_openings::{fresh_agents_open, fresh_records};
use cluster_steps::ClusterFault;
use names_core::Run;
use post_rules::EverSent;
use std::alloc::Global;

/// The cluster of configured agents that never ran, in run 1.
pub fn open_fresh(alloc: Global, config: Config) -> Result<Cluster<EverSent>, ClusterFault>
    ensures opened { IfOk result (λ cluster. cluster.story
        ≡ record {
          setup = record { run = 1; weights = config.weights };
          records = fresh_records config.agents;
          entries = [];
        }) }
    ensures memory { IfErr result (λ fault. fault ≡ OutOfMemory) }
{
    fresh_agents_open(&config.agents);
    let records = fresh_records(alloc, &config.agents)?;
    Cluster::open(alloc, config, records, Run::new(1))
}
