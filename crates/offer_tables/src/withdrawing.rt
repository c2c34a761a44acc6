//! Offers to a framework that are withdrawn.

ghost use Rattle.std.specs.Prelude.{◌≡◌, ◌==◌, ◌&&◌, ◌<◌, ◌∷◌, [], Ok, map, length, OnOk, OnErr, IfErr};
ghost use Rattle.cluster_model.specs.Masters.{is_of};
ghost use Rattle.offer_book.specs.Lists.{at_place};
ghost use Rattle.offer_tables.specs.Accounts.{without_named, without_offer_at, without_offers_of};
ghost use Rattle.offer_tables.specs.Books.{withdrawn_on};
ghost use Rattle.offer_tables.specs.Found.{offers_on};
ghost use Rattle.offer_tables.specs.Faults.{IsDue};

use crate::book::OfferBook;
use crate::fault::BookFault;
use messages::Offer;
use names_core::{AgentName, FrameworkId, OfferId};
use offer_book::Located;

fn is_to(offer: &Offer, framework: FrameworkId) -> bool
    ensures { result ≡ is_of framework offer.now }
{
    offer.framework == framework
}

/// Whether an offer is at a place and to a framework.
fn is_at(located: &Located<Offer>, place: usize, framework: FrameworkId) -> bool
    ensures { result ≡ (located.now.place == place && is_of framework located.now.item) }
{
    located.place == place && is_to(&located.item, framework)
}

impl OfferBook {
    /// The offer of this id is withdrawn, if it is one to the framework.
    fn withdraw_one(&mut self, framework: FrameworkId, id: OfferId)
        ensures { self.new ≡ map (without_named framework (id ∷ [])) self.old }
    {
        if let Some(located) = self.offer_place(id) {
            if is_to(&located.item, framework) {
                self.drop_offer(id);
            }
        }
    }

    /// Withdraws the offers to a framework, on any agent, that have one of these ids. It takes no
    /// memory.
    pub fn withdraw_named(&mut self, framework: FrameworkId, ids: &[OfferId])
        ensures { self.new ≡ map (without_named framework ids.now) self.old }
    {
        for id in ids {
            self.withdraw_one(framework, *id);
        }
    }

    /// The offer of this id is withdrawn, if it is one to the framework on the agent at a place.
    fn withdraw_one_at(&mut self, place: usize, framework: FrameworkId, id: OfferId)
        ensures { self.new ≡ at_place place (without_named framework (id ∷ [])) self.old }
    {
        if let Some(located) = self.offer_place(id) {
            if is_at(located, place, framework) {
                self.drop_offer(id);
            }
        }
    }

    fn withdraw_named_at(&mut self, place: usize, framework: FrameworkId, ids: &[OfferId])
        ensures { self.new ≡ at_place place (without_named framework ids.now) self.old }
    {
        for id in ids {
            self.withdraw_one_at(place, framework, *id);
        }
    }

    /// Withdraws the offers to a framework on one agent that have one of these ids. `B1 Unknown`
    /// where no agent of this name is in. It takes no memory.
    pub fn withdraw_used(
        &mut self,
        name: &AgentName,
        framework: FrameworkId,
        ids: &[OfferId],
    ) -> Result<(), BookFault>
        ensures ok { OnOk result (withdrawn_on name.now framework ids.now self.old ≡ Ok self.new) }
        ensures refused { IfErr result
            (λ fault. IsDue (withdrawn_on name.now framework ids.now self.old) fault) }
        ensures err { OnErr result (self.new ≡ self.old) }
    {
        let Some(place) = self.place_of(name) else {
            return Err(BookFault::Unknown);
        };
        self.withdraw_named_at(place, framework, ids);
        Ok(())
    }

    /// The offer at an index on the agent at a place is withdrawn, if it is one to the framework.
    fn withdraw_at(&mut self, place: usize, index: usize, framework: FrameworkId)
        requires { index < length (offers_on place self.old) }
        ensures { self.new ≡ at_place place (without_offer_at (is_of framework) index) self.old }
    {
        let id = self.offers_on(place)[index];
        if let Some(located) = self.offer_place(id) {
            if is_to(&located.item, framework) {
                self.drop_offer(id);
            }
        }
    }

    fn withdraw_of_at(&mut self, place: usize, framework: FrameworkId)
        ensures { self.new ≡ at_place place (without_offers_of framework) self.old }
    {
        let mut index = self.offers_on(place).len();
        while index > 0 {
            index -= 1;
            self.withdraw_at(place, index, framework);
        }
    }

    /// Withdraws all offers to a framework. It takes no memory.
    pub fn withdraw_of(&mut self, framework: FrameworkId)
        ensures { self.new ≡ map (without_offers_of framework) self.old }
    {
        for place in 0..self.len() {
            self.withdraw_of_at(place, framework);
        }
    }
}
