//! An offer.

ghost use Rattle.std.proofs.Common.{rules};

use names_core::{AgentName, FrameworkId, OfferId};
use quantity::Resources;
use values::Plain;

/// Resources of an agent that a framework may use.
#[derive(Clone, Drop, PartialEq)]
pub struct SentOffer {
    pub id: OfferId,
    pub framework: FrameworkId,
    pub agent: AgentName,
    pub resources: Resources,
}

impl Plain for SentOffer {
    ghost use Rattle.quantity.specs.contracts.resources.ResourcesPlain.TheImpl.Laws.{decided-law as resources_decided};

    ghost cloned = { Prim.search rules };

    ghost decided = { Prim.search (rules, resources_decided) };
}
