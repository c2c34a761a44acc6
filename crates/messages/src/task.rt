//! Offers, and what is launched from them.

ghost use Rattle.std.proofs.Common.{rules};

use names_core::{FrameworkId, LaunchKey, OfferId, TaskName, TaskState};
use quantity::Resources;
use values::Plain;

/// What is launched under a launch key.
#[derive(Clone, Debug, PartialEq)]
pub struct Job {
    pub key: LaunchKey,
    pub framework: FrameworkId,
    pub name: TaskName,
    pub resources: Resources,
}

// By hand, so that who drops one goes through none of its parts.
impl Drop for Job {
    fn drop(self) {
        let Job {
            key: _,
            framework: _,
            name: _,
            resources: _,
        } = self;
    }
}

impl Plain for Job {
    ghost use Rattle.quantity.specs.contracts.resources.ResourcesPlain.TheImpl.Laws.{decided-law as resources_decided};

    ghost cloned = { Prim.search rules };

    ghost decided = { Prim.search (rules, resources_decided) };
}

/// Resources of one agent that are offered to a framework.
#[derive(Clone, Drop, PartialEq)]
pub struct Offer {
    pub id: OfferId,
    pub framework: FrameworkId,
    pub resources: Resources,
}

impl Plain for Offer {
    ghost use Rattle.quantity.specs.contracts.resources.ResourcesPlain.TheImpl.Laws.{decided-law as resources_decided};

    ghost cloned = { Prim.search rules };

    ghost decided = { Prim.search (rules, resources_decided) };
}

/// A task in the master's books, and in the report of an agent.
#[derive(Clone, PartialEq)]
pub struct Booked {
    pub job: Job,
    /// Whether it has ended for good.
    pub ended: bool,
    /// How many of its updates were received; in a report, how many were sent.
    pub received: u32,
    /// The state of the last update that was received, or TASK_STAGING.
    pub state: TaskState,
}

// By hand, so that who drops one goes through none of its parts.
impl Drop for Booked {
    fn drop(self) {
        let Booked {
            job: _,
            ended: _,
            received: _,
            state: _,
        } = self;
    }
}

impl Plain for Booked {
    ghost use Rattle.messages.specs.contracts.task.JobPlain.TheImpl.Laws.{decided-law as job_decided};
    ghost use Rattle.names_core.specs.contracts.state.TaskStatePlain.TheImpl.Laws.{decided-law as state_decided};
    ghost use Rattle.values.specs.Deciding.{and_decides};
    ghost use Rattle.std.specs.Cmp.{booleans_Decides, unsigned_Decides};

    ghost cloned = { Prim.search rules };

    ghost decided = { λ x y. (let d = and_decides (job_decided x.job y.job) (and_decides
        (booleans_Decides x.ended y.ended) (and_decides (unsigned_Decides x.received y.received)
        (state_decided x.state y.state))) in (
          (λ h. let e = d.0 h in
              Prim.search rules),
          (λ e. d.1 (Prim.search rules)),
        )) };
}
