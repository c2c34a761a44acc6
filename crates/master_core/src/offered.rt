//! The sum of offers.

ghost use Rattle.std.specs.Prelude.{◌≡◌, [], IfOk, OnOk};
ghost use Rattle.quantity.specs.Rows.{plus_rows};
ghost use Rattle.cluster_model.specs.Sides.{offer_rows};

use master_agents::OffersAt;
use quantity::Resources;
use std::alloc::{AllocError, Global};

fn add(sum: &mut Resources, alloc: Global, more: &Resources) -> Result<(), AllocError>
    ensures { OnOk result (sum.new ≡ plus_rows sum.old more.now) }
{
    match sum.plus(alloc, more) {
        Ok(both) => {
            *sum = both;
            Ok(())
        }
        Err(_) => Err(AllocError),
    }
}

/// What offers have together. A sum past the limits of resources,
/// which offers that fit what an agent owns don't have, is refused as if memory were.
pub fn sum_of(alloc: Global, offers: OffersAt<'_>) -> Result<Resources, AllocError>
    ensures { IfOk result (λ sum. sum ≡ plus_rows [] (offer_rows offers.entry)) }
{
    let mut sum = Resources::new(alloc);
    for offer in offers {
        add(&mut sum, alloc, &offer.resources)?;
    }
    Ok(sum)
}
