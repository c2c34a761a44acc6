//! What a master's step keeps of its run, and the order of the streams.

ghost use Rattle.std.specs.Prelude.{◌≡◌, ◌∷◌, List, [], length, suc, Option, ℕ};
ghost use Rattle.cluster_laws.specs.Runs.{AreRising, KeepsRun, OpensNext, SameRun, ids_of};
ghost use Rattle.names_core.specs.Weights.{RoleWeight};
ghost use Rattle.cluster_model.specs.Calls.{call_effect};
ghost use Rattle.cluster_model.specs.Channels.{At, Receive};
ghost use Rattle.cluster_model.specs.Clusters.{Cluster, master_of};
ghost use Rattle.cluster_model.specs.Mails.{agent_lost, hung_up, mail_effect, ticked};
ghost use Rattle.cluster_model.specs.Masters.{Master};
ghost use Rattle.cluster_model.specs.Rounds.{allocated};
ghost use Rattle.cluster_model.specs.Sides.{Side};
ghost use Rattle.cluster_model.specs.Steps.{Setup, Marked, done, effect_of, history};
ghost use Rattle.messages.specs.declared.call.Call.{Call};
ghost use Rattle.messages.specs.declared.mail.AgentMail.{AgentMail};
ghost use Rattle.messages.specs.declared.record.RecordParts.{RecordParts};
ghost use Rattle.names_core.specs.Ids.{Numbered};

/// Whatever a master does on a call, in a round, at a Tick, where it loses an agent,
/// at a hang-up or at a mail, it stays in its run, and serves if it did.
pub fn masters_stay_in_their_run()
    ensures calls { (c : Cluster) (stream : Option Numbered) (call : Call)
        → KeepsRun c (call_effect (master_of c) stream call) }
    ensures rounds { (c : Cluster) → KeepsRun c (allocated c.weights (master_of c)) }
    ensures ticks { (c : Cluster) (now : ℕ) → KeepsRun c (ticked (master_of c) now) }
    ensures losses { (c : Cluster) (s : Side) → KeepsRun c (agent_lost (master_of c) s) }
    ensures hang_ups { (c : Cluster) (stream : Numbered)
        → KeepsRun c (hung_up (master_of c) stream) }
    ensures mails { (c : Cluster) (agent : List ℕ) (place : ℕ) (s : Side) (mail : AgentMail)
        → SameRun c.world.run
        (done c (effect_of (At agent (Receive place) ∷ [])
        (mail_effect (master_of c) s mail))).after.world.run }
{}

/// A master opens no stream in a step, or the one with the number after the last one.
pub fn masters_open_next_streams()
    ensures calls { (m : Master) (stream : Option Numbered) (call : Call)
        → OpensNext m (call_effect m stream call) }
    ensures rounds { (weights : List RoleWeight) (m : Master) → OpensNext m (allocated weights m) }
    ensures ticks { (m : Master) (now : ℕ) → OpensNext m (ticked m now) }
    ensures losses { (m : Master) (s : Side) → OpensNext m (agent_lost m s) }
    ensures hang_ups { (m : Master) (stream : Numbered) → OpensNext m (hung_up m stream) }
    ensures mails { (m : Master) (s : Side) (mail : AgentMail)
        → OpensNext m (mail_effect m s mail) }
{}

/// A state counts the opening and the entries of its history.
pub fn states_count_entries()
    ensures { (setup : Setup) (records : List RecordParts) (steps : List Marked) →
        (history setup records steps).state.entries
        ≡ suc (length (history setup records steps).entries) }
{}

/// The roles' weights stay those of the opening.
pub fn weights_stay()
    ensures { (setup : Setup) (records : List RecordParts) (steps : List Marked) →
        (history setup records steps).state.weights ≡ setup.weights }
{}

/// The ids of the streams that were ever opened rise, by run and then by number, so that none
/// occurs twice.
pub fn streams_rise()
    ensures { (setup : Setup) (records : List RecordParts) (steps : List Marked) →
        AreRising (ids_of (history setup records steps).state.streams) }
{}
