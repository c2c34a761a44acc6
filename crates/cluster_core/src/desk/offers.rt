//! The current offers of a master, as who answers them needs them.

ghost use Rattle.std.specs.Prelude.{◌≡◌, ◌++◌, ◌∷◌, [], map, IfOk, OnOk};
ghost use Rattle.cluster_core.specs.Offers.{offers_on, open_offer, open_offers};

use desk_core::OpenOffer;
use master_agents::{OffersAt, Sides};
use master_core::Master;
use names_core::{FrameworkId, OfferId, StreamId};
use std::alloc::{AllocError, Global};

/// Appends an offer of a master, with its framework, and the framework's open stream.
fn push(
    list: &mut Vec<OpenOffer>,
    id: OfferId,
    framework: FrameworkId,
    stream: Option<StreamId>,
) -> Result<(), AllocError>
    ensures { OnOk result (list.new.items ≡ list.old.items
        ++ record { id = id; framework = framework; stream = stream } ∷ []) }
{
    list.push(OpenOffer {
        id,
        framework,
        stream,
    })?;
    Ok(())
}

fn push_offers(
    list: &mut Vec<OpenOffer>,
    master: &Master,
    offers: OffersAt<'_>,
) -> Result<(), AllocError>
    ensures { OnOk result (list.new.items
        ≡ list.old.items ++ map (open_offer master.now) offers.entry) }
{
    for offer in offers {
        let framework = offer.framework;
        push(list, offer.id, framework, master.stream_of(framework))?;
    }
    Ok(())
}

fn push_sides(list: &mut Vec<OpenOffer>, master: &Master, sides: &Sides) -> Result<(), AllocError>
    ensures { OnOk result (list.new.items
        ≡ list.old.items ++ offers_on master.now sides.now) }
{
    for side in sides.iter() {
        push_offers(list, master, side.offers())?;
    }
    Ok(())
}

/// The current offers of a master, agent by agent; none where it is down.
pub(crate) fn open_offers(alloc: Global, master: &Master) -> Result<Vec<OpenOffer>, AllocError>
    ensures { IfOk result (λ offers. offers.items ≡ open_offers master.now) }
{
    let mut offers = Vec::new(alloc);
    if let Some(sides) = master.sides() {
        push_sides(&mut offers, master, sides)?;
    }
    Ok(offers)
}
