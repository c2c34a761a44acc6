//! A cluster that runs, as a desk records it.

ghost use Rattle.std.specs.Prelude.{◌≡◌, ℕ, Bool, List, Option, option_map, IfOk};
ghost use Rattle.messages.specs.declared.entries.entry.Entry.{Entry};
ghost use Rattle.messages.specs.declared.steps.fault.ClusterFault.{ClusterFault};
ghost use Rattle.messages.specs.declared.steps.step.Step.{Step};
ghost use Rattle.messages.specs.declared.record.RecordParts.{RecordParts};
ghost use Rattle.names_core.specs.Ids.{Numbered};
ghost use Rattle.desk_core.specs.declared.desk.pass.Answered.{Answered};
ghost use Rattle.desk_core.specs.declared.fault.OfficeFault.{OfficeFault};
ghost use Rattle.desk_core.specs.Found.{IsRefusedCall};
ghost use Rattle.desk_core.specs.Receipts.{IsTaken, PassState};
ghost use Rattle.desk_core.specs.declared.running.given.Given as given;
ghost use Rattle.desk_core.specs.declared.running.open_offer.OpenOffer as open_offer;

use crate::Recorded;
use crate::running::awaited::Awaited;
use crate::running::given::Given;
use crate::running::kept_entry::KeptEntry;
use crate::running::open_offer::OpenOffer;
use agent_core::Record;
use messages::{ClusterFault, Step};
use names_core::{AgentName, StreamId};
use std::alloc::{AllocError, Global};

/// A cluster that runs. An agent's thread, the ticker and connections use it by this trait alone.
pub trait Running: Recorded<
    Step = Step,
    Entry = KeptEntry,
    Given = Given,
    Fault = ClusterFault,
    Awaited = Awaited,
> {
    /// Some state of it took this step so.
    ghost is_taken: { Step → Answered Entry given.Given → Type 0 };

    /// Some state of it refuses this step of a pass so.
    ghost is_refused: { PassState Entry → Step → OfficeFault ClusterFault → Type 0 };

    /// The record of an agent; None where no such agent is configured.
    ghost record_of: { Self → List ℕ → Option RecordParts };

    /// Of the mails to an agent this is the number of the first that wasn't delivered;
    /// None where there is none.
    ghost is_first_to: { Self → List ℕ → Option ℕ → Type 0 };

    /// Of the mails from an agent this is the number of the first that wasn't delivered;
    /// None where there is none.
    ghost is_first_from: { Self → List ℕ → Option ℕ → Type 0 };

    /// Whether an agent has an open session.
    ghost has_session: { Self → List ℕ → Bool };

    /// How many events of a stream nobody took yet, and whether it is open;
    /// None for one that was never opened.
    ghost stream_of: { Self → Numbered → Option (ℕ × Bool) };

    /// The current offers of the master that serves, each with its framework and that framework's
    /// open stream; none while no master serves.
    ghost offers_of: { Self → List open_offer.OpenOffer };

    /// The record of an agent; None where no such agent is configured.
    fn durable(&self, agent: &AgentName) -> Option<&Record>
        ensures { option_map (λ d. d.now) result ≡ record_of self.now agent.now };

    /// The number of the first mail to an agent that wasn't delivered; None where there is none.
    fn first_mail(&self, agent: &AgentName) -> Option<u64>
        ensures { is_first_to self.now agent.now result };

    /// The number of the first mail from an agent that wasn't delivered; None where there is none.
    fn first_mail_from(&self, agent: &AgentName) -> Option<u64>
        ensures { is_first_from self.now agent.now result };

    /// Whether an agent has an open session; not where no such agent is configured.
    fn is_in_session(&self, agent: &AgentName) -> bool
        ensures { result ≡ has_session self.now agent.now };

    /// How many events of a stream nobody took yet, and whether it is open, which it isn't while no
    /// master serves. None for a stream that was never opened.
    fn stream(&self, stream: StreamId) -> Option<(usize, bool)>
        ensures { result ≡ stream_of self.now stream };

    /// The current offers, agent by agent, those of an agent in order of their making.
    fn open_offers(&self, alloc: Global) -> Result<Vec<OpenOffer>, AllocError>
        ensures { IfOk result (λ offers. offers.items ≡ offers_of self.now) };

    /// The step of an entry is the one that was requested.
    ghost asks_its_step: { (entry : Entry) → Self.step_of entry ≡ entry.step };

    /// What a desk over it answers, it took so.
    ghost takes_so: { (step : Step) (a : Answered Entry given.Given)
        → IsTaken Self.history Self.sound Self.takes step a → is_taken step a };

    /// What a desk over it refuses, it refuses so.
    ghost refuses_so: { (pass : PassState Entry) (step : Step) (fault : OfficeFault ClusterFault)
        → IsRefusedCall Self.history Self.sound Self.kind_of Self.may_refuse pass step fault
        → is_refused pass step fault };
}
