//! The words of the master's contracts are those of the model.

ghost use Rattle.std.specs.Prelude.{◌≡◌, List, Option, Some, ℕ};
ghost use Rattle.master_agents.specs.declared.config.ConfiguredAgent.{ConfiguredAgent};
ghost use Rattle.cluster_laws.specs.Parts.{AreAgentsOf};
ghost use Rattle.names_core.specs.Weights.{RoleWeight};
ghost use Rattle.cluster_model.specs.Channels.{Channel};
ghost use Rattle.cluster_model.specs.Clusters.{Cluster, master_of};
ghost use Rattle.cluster_laws.specs.Runs.{RefusesAlone};
ghost use Rattle.cluster_model.specs.Calls.{call_effect};
ghost use Rattle.cluster_model.specs.Mails.{agent_lost, hung_up, mail_effect, ticked};
ghost use Rattle.cluster_model.specs.Masters.{Master};
ghost use Rattle.cluster_model.specs.Rounds.{allocated};
ghost use Rattle.cluster_model.specs.Sides.{Side};
ghost use Rattle.messages.specs.declared.call.Call.{Call};
ghost use Rattle.names_core.specs.Ids.{Numbered};
ghost use Rattle.cluster_model.specs.Steps.{Setup, channel_of, opened_over};
ghost use Rattle.messages.specs.declared.mail.AgentMail.{AgentMail};
ghost use Rattle.messages.specs.declared.record.RecordParts.{RecordParts};
ghost use Rattle.master_agents.specs.Named.{lost_by, mailed_by};
ghost use Rattle.master_state.specs.States.{fresh};
ghost use Rattle.master_state.specs.Works.{master_of as master_in};

/// What the master does at the agent of a name is what the model
/// has it do at the side of its channel.
pub fn named_agents_are_found()
    ensures losses { (c : Cluster) (agent : List ℕ) (x : Channel) → channel_of c agent ≡ Some x
        → lost_by (master_of c) agent ≡ agent_lost (master_of c) x.side }
    ensures mails { (c : Cluster) (agent : List ℕ) (x : Channel) (mail : AgentMail)
        → channel_of c agent ≡ Some x → mailed_by (master_of c) agent mail
        ≡ mail_effect (master_of c) x.side mail }
{}

/// A master that begins a run over the agents of records, whatever they are configured to own,
/// is the one that the opening has before it greets them.
pub fn fresh_masters_open()
    ensures { (setup : Setup) (agents : List ConfiguredAgent) (records : List RecordParts)
        → AreAgentsOf agents records
        → master_in (fresh setup.run agents) ≡ master_of (opened_over setup records) }
{}

/// What a master refuses, but for a mail, it refuses alone: nothing moves, no event is sent, and no
/// stream opens or closes.
pub fn refusals_stand_alone()
    ensures calls { (m : Master) (stream : Option Numbered) (call : Call)
        → RefusesAlone m (call_effect m stream call) }
    ensures rounds { (weights : List RoleWeight) (m : Master) →
        RefusesAlone m (allocated weights m) }
    ensures ticks { (m : Master) (now : ℕ) → RefusesAlone m (ticked m now) }
    ensures losses { (m : Master) (s : Side) → RefusesAlone m (agent_lost m s) }
    ensures hang_ups { (m : Master) (stream : Numbered) → RefusesAlone m (hung_up m stream) }
{}
