//! An activity's cabinet is opened before the first step.

ghost use Rattle.std.specs.Prelude.{◌≡◌, ◌≢◌, false, true, Some, IsTrue, IfErr, IfOk, IfSome, OnOk};
ghost use Rattle.messages.specs.declared.record.RecordParts.{RecordParts};
ghost use Rattle.desk_agents.specs.Ends.{IsOver};
ghost use Rattle.desk_agents.specs.Opened.{IsOwn, IsOwnThere, KeepsOwn};
ghost use Rattle.desk_agents.specs.Stops.{IsLasting};
ghost use Rattle.desk_agents.specs.declared.fault.CabinetFailures.TheVariants.{Borne};
ghost use Rattle.desk_agents.specs.declared.fault.Stop.TheVariants.{Ended, Later};
ghost use Rattle.desk_lock.specs.Waits.{LacksAgent};

use crate::fault::{ActivityFault, CabinetFailures, Stop, found};
use crate::records::is_own;
use crate::worker::Worker;
use agent_core::{Cabinet, Record};
use desk_core::{Awaited, ClusterFault, KeptEntry, Running};
use desk_lock::Pass;
use names_core::AgentName;
use std::sync::{Wait, ledger};
use std::time::{Clock, Duration};

/// Whether what a cabinet keeps is the record of an agent. Refusal: C8.
fn owns_at<D: Running>(
    cluster: &D,
    agent: &AgentName,
    kept: &Option<Record>,
) -> Result<Option<bool>, ClusterFault>
    ensures own { IfOk result (λ found. IfSome found (λ is. IsTrue is → (own : RecordParts)
        × (D.record_of cluster.now agent.now ≡ Some own) × IsOwn kept.now own)) }
    ensures lacks { IfErr result (λ fault. LacksAgent D.record_of agent.now cluster.now fault) }
{
    match cluster.durable(agent) {
        Some(own) => Ok(Some(is_own(kept, own))),
        None => Err(ClusterFault::NoSuchAgent),
    }
}

impl<'a, D: Running, L: ledger::Ledger, R: Wait + Clock> Worker<'a, D, L, R> {
    /// Whether what a cabinet keeps is the agent's own record.
    pub fn owns<F>(&self, pass: &Pass<KeptEntry, L>, kept: &Option<Record>) -> Result<bool, Stop<F>>
        ensures own { IfOk result (λ is. IsTrue is
            → IsOwnThere D.history D.sound D.record_of self.now.agent.now kept.now) }
        ensures over { IfErr result (λ stop. stop ≡ Ended
            → IsOver D.history D.sound D.record_of D.is_refused self.now.agent.now pass.now) }
    {
        let agent = self.agent;
        let look = |cluster: &D| owns_at(cluster, agent, kept);
        let mails = Awaited::mails_to(agent);
        found(
            self.office
                .wait_for(self.rt, pass, mails, Duration::ZERO, look),
        )
    }

    /// Opens the cabinet. It is refused with `K2 Damaged` where that keeps another record than the
    /// agent's own.
    fn open<C: Cabinet>(
        &self,
        pass: &Pass<KeptEntry, L>,
        cabinet: &mut C,
    ) -> Result<(), Stop<C::Fault>>
        ensures own { OnOk result (KeepsOwn D.history D.sound D.record_of C.keeps
            self.now.agent.now cabinet.new) }
        ensures over { IfErr result (λ stop. stop ≡ Ended
            → IsOver D.history D.sound D.record_of D.is_refused self.now.agent.now pass.now) }
    {
        let kept = match cabinet.reopen(self.alloc) {
            Ok(kept) => kept,
            Err(fault) => return Err(Stop::Failed(ActivityFault::Cabinet(fault))),
        };
        if self.owns(pass, &kept)? {
            Ok(())
        } else {
            Err(Stop::Failed(ActivityFault::Damaged))
        }
    }

    /// Whether an opening that failed so is tried again a second later.
    fn is_tried_again<F>(&self, stop: &Stop<F>) -> bool
        ensures lasting { self.now.failures ≡ Borne → result ≡ false → IsLasting stop.now }
        ensures later { stop.now ≡ Later → result ≡ true }
    {
        match stop {
            Stop::Later => true,
            Stop::Failed(ActivityFault::Cabinet(_)) => {
                matches!(self.failures, CabinetFailures::Borne)
            }
            Stop::Ended | Stop::Failed(ActivityFault::Damaged) => false,
        }
    }

    /// Opens the cabinet, a second later again where the office refused a look at it or where the
    /// fault of the cabinet is borne, until it keeps the agent's own record.
    pub fn open_at_last<C: Cabinet>(
        &self,
        pass: &Pass<KeptEntry, L>,
        cabinet: &mut C,
    ) -> Result<(), Stop<C::Fault>>
        ensures own { OnOk result (KeepsOwn D.history D.sound D.record_of C.keeps
            self.now.agent.now cabinet.new) }
        ensures over { IfErr result (λ stop. stop ≡ Ended
            → IsOver D.history D.sound D.record_of D.is_refused self.now.agent.now pass.now) }
        ensures borne { self.now.failures ≡ Borne → IfErr result IsLasting }
        ensures lasts { IfErr result (λ stop. stop ≢ Later) }
    {
        for _ in self.rt.forever() {
            match self.open(pass, cabinet) {
                Ok(()) => return Ok(()),
                Err(stop) if self.is_tried_again(&stop) => self.pause(pass)?,
                Err(stop) => return Err(stop),
            }
        }
        unreachable!()
    }
}
