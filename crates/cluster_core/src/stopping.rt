//! What a stop leaves of a cluster's records.

ghost use Rattle.std.specs.Prelude.{◌≡◌, ◌<◌, ℕ, List};
ghost use Rattle.cluster_agents.specs.Records.{AreRecordsOf};
ghost use Rattle.cluster_core.specs.Stopping.{AreCovered, AreFound, live_in, live_of};
ghost use Rattle.cluster_core.specs.Stories.{IsLegal, Story, opened_over, state_of};
ghost use Rattle.master_agents.specs.declared.config.ConfiguredAgent.{ConfiguredAgent};
ghost use Rattle.cluster_laws.specs.Parts.{AreAgentsOf};
ghost use Rattle.cluster_model.specs.Openings.{GoodOpening};
ghost use Rattle.cluster_model.specs.Steps.{Setup};
ghost use Rattle.messages.specs.declared.record.RecordParts.{RecordParts as Record};

use cluster_laws::masters_leave_agents;
use cluster_safe::found_records_open_again;

/// Over what a stop of a legal story leaves, its agents may be opened in any later run, as long as
/// they are configured to own what the records say, and their live tasks are those of the records.
pub(crate) fn stopped_stories_open_again()
    ensures good { (s : Story) (later : ℕ) (found : List Record) → IsLegal s
        → (state_of s).world.run.number < later → AreFound (state_of s) found
        → GoodOpening later found }
    ensures records { (s : Story) (agents : List ConfiguredAgent) (found : List Record) → IsLegal s
        → AreAgentsOf agents s.records → AreCovered agents found → AreFound (state_of s) found
        → AreRecordsOf agents found }
    ensures live { (s : Story) (later : Setup) (agents : List ConfiguredAgent)
        (found : List Record) → IsLegal s → AreAgentsOf agents s.records
        → (state_of s).world.run.number < later.run → (f : AreFound (state_of s) found)
        → live_in (state_of (opened_over later agents found)) ≡ live_of f.by_agent }
{
    found_records_open_again();
    masters_leave_agents();
}
