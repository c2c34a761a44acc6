//! Steps that may be refused memory.

use cluster_channels::EverSent;
use cluster_core::{Cluster, ClusterFault, Entry, Keep, Step, Taken, Verdict};
use std::alloc::{AllocError, Global};
use values::Plain;

/// How a step was refused memory.
#[derive(Clone, Copy, Debug, Drop, PartialEq, Eq)]
pub(crate) enum Mark {
    /// It is no entry, and nothing changed.
    Refused,
    /// Its part ran out of memory in the step, and was restarted.
    Fell,
}

impl Mark {
    pub(crate) fn as_text(self) -> &'static str {
        match self {
            Mark::Refused => "refused",
            Mark::Fell => "fell",
        }
    }
}

/// The step that restarts the part that failed in a step: in a Prepare its agent, over its record,
/// and in any other the master.
fn recovery_of(step: &Step) -> Result<Step, AllocError> {
    match step {
        Step::Prepare { agent, .. } => Ok(Step::StopAgent {
            agent: agent.copy()?,
            keep: Keep::Before,
        }),
        _ => Ok(Step::StopMaster),
    }
}

/// Whether a step restarted a part.
fn is_up(taken: &Result<Taken, ClusterFault>) -> bool {
    match taken {
        Ok(taken) => taken.entry.get().verdict == Verdict::Ok,
        Err(_) => false,
    }
}

/// Restarts the part that failed in a step. It fails where that is refused memory too.
fn bring_up(
    cluster: &mut Cluster<EverSent>,
    alloc: Global,
    fallen: &Step,
) -> Result<Option<Mark>, AllocError> {
    let recovery = recovery_of(fallen)?;
    let taken = cluster.step(alloc, recovery);
    if is_up(&taken) {
        Ok(Some(Mark::Fell))
    } else {
        Err(AllocError)
    }
}

/// Restarts the part that failed in the step of an entry, if one did.
fn recover(
    cluster: &mut Cluster<EverSent>,
    alloc: Global,
    entry: &Entry,
) -> Result<Option<Mark>, AllocError> {
    match entry.verdict {
        Verdict::OutOfMemory => bring_up(cluster, alloc, &entry.step),
        _ => Ok(None),
    }
}

/// Takes a step, and returns how it was refused memory, if it was. It fails where the part that
/// failed can't be restarted.
pub(crate) fn take_step(
    cluster: &mut Cluster<EverSent>,
    alloc: Global,
    step: Step,
) -> Result<Option<Mark>, AllocError> {
    match cluster.step(alloc, step) {
        Ok(taken) => recover(cluster, alloc, taken.entry.get()),
        Err(ClusterFault::OutOfMemory) => Ok(Some(Mark::Refused)),
        Err(_) => Ok(None),
    }
}
