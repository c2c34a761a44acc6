//! The offers of one event.

ghost use Rattle.std.specs.Prelude.{◌≡◌, ◌≤◌, length};

use crate::events::offer::SentOffer;
use std::alloc::{AllocError, Global};
use std::marker::Model;
use values::Plain;

/// At most 256 offers.
pub struct Offers {
    offers: Vec<SentOffer>,
}

// By hand, so that who drops one goes through none of its parts.
impl Drop for Offers {
    fn drop(self) {
        let Offers { offers: _ } = self;
    }
}

impl Model for Offers {
    ghost use Rattle.std.specs.Prelude.{List, ◌≤◌, length};
    ghost use Rattle.messages.specs.declared.events.offer.SentOffer.{SentOffer};

    ghost Value = { List SentOffer };

    ghost view = { λ o. o.offers.items };

    ghost invariant = { λ o. length o.offers.items ≤ 256 };
}

impl Offers {
    pub fn from_vec(offers: Vec<SentOffer>) -> Offers
        requires { length offers.items ≤ 256 }
        ensures { result ≡ offers.items }
    {
        Offers { offers }
    }

    pub fn into_vec(self) -> Vec<SentOffer>
        ensures { result.items ≡ self }
    {
        let Offers { offers } = self;
        offers
    }

    pub fn as_slice(&self) -> &[SentOffer]
        ensures offers { result.now ≡ self.now }
        ensures few { length self.now ≤ 256 }
    {
        self.offers.as_slice()
    }
}

impl Clone for Offers {
    ghost is_clone = { λ one other. other ≡ one };

    fn clone(&self) -> Result<Offers, AllocError> {
        Ok(Offers {
            offers: self.offers.clone()?,
        })
    }
}

impl PartialEq for Offers {
    ghost use Rattle.messages.specs.contracts.events.offer.SentOfferPlain.TheImpl.Laws.{decided-law as offer_decided};
    ghost use Rattle.values.specs.Deciding.{per_from_decides};
    ghost use Rattle.std.specs.Cmp.Lexicographic.{pointwise, pointwise_decides};

    ghost eq = { pointwise ⟦<SentOffer as PartialEq>⟧.eq };

    ghost laws = { per_from_decides (pointwise_decides offer_decided) };

    fn eq(&self, other: &Offers) -> bool {
        self.offers == other.offers
    }
}

impl Plain for Offers {
    ghost use Rattle.messages.specs.contracts.events.offer.SentOfferPlain.TheImpl.Laws.{decided-law as offer_decided};
    ghost use Rattle.std.specs.Cmp.Lexicographic.{pointwise_decides};

    ghost cloned = { λ _ _ same. same };

    ghost decided = { pointwise_decides offer_decided };
}
