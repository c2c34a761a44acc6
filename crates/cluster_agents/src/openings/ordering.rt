//! Records in the order of their agents' names.

ghost use Rattle.std.specs.Prelude.{◌≡◌};
ghost use Rattle.std.specs.List.Sorted.{IsPermutation, IsSortedBy};
ghost use Rattle.cluster_agents.specs.Records.{AreRecordsOf, comes_before, in_order};
ghost use Rattle.cluster_laws.specs.Parts.{AreAgentsOf};
ghost use Rattle.cluster_model.specs.Openings.{GoodOpening};

use agent_core::Record;
use master_agents::ConfiguredAgents;
use names_core::Run;

/// Sorts records by the names of their agents.
fn sort_by_name(records: &mut [Record])
    ensures permutation { IsPermutation records.old records.new }
    ensures sorted { IsSortedBy comes_before records.new }
{
    records.sort_unstable_by(|first, second| first
        .parts()
        .name
        .as_text()
        .cmp(second.parts().name.as_text()));
}

/// Sorts records that are a good opening in this run in the order of the configured agents.
pub fn put_in_order(config: &ConfiguredAgents, mut records: Vec<Record>, _run: Run) -> Vec<Record>
    requires good { GoodOpening _run records.items }
    requires records { AreRecordsOf config.now records.items }
    ensures order { result.items ≡ in_order config.now records.items }
    ensures good { GoodOpening _run result.items }
    ensures agents { AreAgentsOf config.now result.items }
{
    let _agents = config.agents();
    sort_by_name(records.as_mut_slice());
    records
}
