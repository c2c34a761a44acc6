//! A cluster whose agents are down for a while, as one is that ran out of memory in a step.

ghost use Rattle.std.specs.Prelude.{◌≡◌, ⊤, None};
ghost use Rattle.cluster_core.specs.Recording.{kind_of as kind_of_fault};
ghost use Rattle.desk_core.specs.Groups.{groups_of};

use cluster_core::{ClusterFault, KeptEntry, Record, RecordedCluster, Step};
use desk_core::{Awaited, Given, OpenOffer, Running};
use desk_lock::{Entered, FaultKind, Freed, Recorded};
use names_core::{AgentName, StreamId};
use std::alloc::{AllocError, Global};

/// A cluster whose agents are down once its history has so many entries, until one is stopped: a
/// Prepare and a Commit are refused with C3 then.
#[derive(Drop)]
pub struct FallingCluster {
    cluster: RecordedCluster,
    /// None once an agent was stopped.
    falls_at: Option<u32>,
}

fn needs_agent(step: &Step) -> bool {
    matches!(step, Step::Prepare { .. } | Step::Commit(_))
}

fn stops_agent(step: &Step) -> bool {
    matches!(step, Step::StopAgent { .. })
}

impl FallingCluster {
    pub fn new(cluster: RecordedCluster, falls_at: u32) -> FallingCluster
        ensures { result.cluster ≡ cluster }
    {
        FallingCluster {
            cluster,
            falls_at: Some(falls_at),
        }
    }

    fn is_down(&self) -> bool {
        match self.falls_at {
            Some(count) => self.cluster.len() >= count,
            None => false,
        }
    }
}

impl Recorded for FallingCluster {
    type Step = Step;

    type Entry = KeptEntry;

    type Given = Given;

    type Fault = ClusterFault;

    type Awaited = Awaited;

    ghost history = { λ c. c.cluster.story.entries };

    ghost step_of = { λ entry. entry.step };

    ghost kind_of = { kind_of_fault };

    ghost sound = { λ _. ⊤ };

    ghost takes = { λ _ _ _ _ _. ⊤ };

    ghost may_refuse = { λ _ _ _. ⊤ };

    ghost alike = { λ _ _. ⊤ };

    ghost waits_in = { λ awaited. awaited };

    ghost frees = { λ entry. groups_of entry };

    fn step(
        &mut self,
        alloc: Global,
        step: Step,
    ) -> Result<Entered<KeptEntry, Given>, ClusterFault> {
        if needs_agent(&step) && self.is_down() {
            return Err(ClusterFault::AgentDown);
        }
        if stops_agent(&step) && self.is_down() {
            self.falls_at = None;
        }
        self.cluster.step(alloc, step)
    }

    fn len(&self) -> u32 {
        self.cluster.len()
    }

    fn is_entry(&self, index: usize, entry: &KeptEntry) -> bool {
        self.cluster.is_entry(index, entry)
    }

    fn share(entry: &KeptEntry) -> KeptEntry {
        RecordedCluster::share(entry)
    }

    fn kind(fault: &ClusterFault) -> FaultKind {
        RecordedCluster::kind(fault)
    }

    fn out_of_memory() -> ClusterFault {
        ClusterFault::OutOfMemory
    }

    fn group_of(awaited: &Awaited) -> u32 {
        RecordedCluster::group_of(awaited)
    }

    fn freed_at(entry: &KeptEntry, index: usize) -> Option<Freed> {
        RecordedCluster::freed_at(entry, index)
    }

    fn is_sound(&self) {}

    ghost alike_itself = { λ _. tt };
}

impl Running for FallingCluster {
    ghost use Rattle.std.specs.Prelude.{⊤};
    ghost use Rattle.std.proofs.Common.{refl};

    ghost is_taken = { λ _ _. ⊤ };

    ghost is_refused = { λ _ _ _. ⊤ };

    ghost record_of = { λ c agent. ⟦<RecordedCluster as Running>⟧.record_of c.cluster agent };

    ghost is_first_to = { λ c agent mail.
        ⟦<RecordedCluster as Running>⟧.is_first_to c.cluster agent mail };

    ghost is_first_from = { λ c agent mail.
        ⟦<RecordedCluster as Running>⟧.is_first_from c.cluster agent mail };

    ghost has_session = { λ c agent. ⟦<RecordedCluster as Running>⟧.has_session c.cluster agent };

    ghost stream_of = { λ c stream. ⟦<RecordedCluster as Running>⟧.stream_of c.cluster stream };

    ghost offers_of = { λ c. ⟦<RecordedCluster as Running>⟧.offers_of c.cluster };

    fn durable(&self, agent: &AgentName) -> Option<&Record> {
        self.cluster.durable(agent)
    }

    fn first_mail(&self, agent: &AgentName) -> Option<u64> {
        self.cluster.first_mail(agent)
    }

    fn first_mail_from(&self, agent: &AgentName) -> Option<u64> {
        self.cluster.first_mail_from(agent)
    }

    fn is_in_session(&self, agent: &AgentName) -> bool {
        self.cluster.is_in_session(agent)
    }

    fn stream(&self, stream: StreamId) -> Option<(usize, bool)> {
        self.cluster.stream(stream)
    }

    fn open_offers(&self, alloc: Global) -> Result<Vec<OpenOffer>, AllocError> {
        self.cluster.open_offers(alloc)
    }

    ghost asks_its_step = { λ _. refl };

    ghost takes_so = { λ _ _ _. tt };

    ghost refuses_so = { λ _ _ _ _. tt };
}
