//! Where the agent of a name, an offer and a booked task stand.

ghost use Rattle.std.specs.Prelude.{◌≡◌, true, None, MatchOption, map};
ghost use Rattle.std.specs.List.{list_any};
ghost use Rattle.std.specs.Option.{option_copied};
ghost use Rattle.names_core.specs.Ids.{same};
ghost use Rattle.offer_tables.specs.Accounts.{has_key, without_key, without_offer};
ghost use Rattle.offer_tables.specs.Books.{agent_of};
ghost use Rattle.offer_tables.specs.Found.{tasks_on};
ghost use Rattle.offer_tables.specs.Places.{IsAgentAt, IsNowhere, IsOnlyFrom};

use crate::agents;
use crate::book::OfferBook;
use messages::{Booked, Offer};
use names_core::{AgentName, LaunchKey, OfferId};
use offer_book::Located;

impl OfferBook {
    /// The place of the agent of a name, if it is in.
    pub(crate) fn place_of(&self, name: &AgentName) -> Option<usize>
        ensures { MatchOption result (agent_of name.now self.now ≡ None)
            (λ place. IsAgentAt name.now place self.now) }
    {
        agents::place_of(&self.names, &self.agents, name)
    }

    /// The offer of this id, if it is current, and its agent's place.
    pub fn offer_place(&self, id: OfferId) -> Option<&Located<Offer>>
        ensures { MatchOption (option_copied result)
            (IsNowhere (λ x. x.id) (λ a. a.offers) id self.now)
            (λ e. (same e.item.id id ≡ true)
            × IsOnlyFrom (λ x. x.id) (λ a. a.offers) 0 id e.place e.item self.now) }
    {
        self.offers.find(id)
    }

    /// The booked task of this key, if any, and its agent's place.
    pub fn task_place(&self, key: LaunchKey) -> Option<&Located<Booked>>
        ensures { MatchOption (option_copied result)
            (IsNowhere (λ x. x.job.key) (λ a. a.booked) key self.now)
            (λ e. (same e.item.job.key key ≡ true)
            × IsOnlyFrom (λ x. x.job.key) (λ a. a.booked) 0 key e.place e.item self.now
            × (list_any (has_key key) (tasks_on e.place self.now) ≡ true)) }
    {
        self.tasks.find(key)
    }

    /// The offer of this id, if it is current, is withdrawn.
    pub(crate) fn drop_offer(&mut self, id: OfferId)
        ensures { self.new ≡ map (without_offer id) self.old }
    {
        let _withdrawn = self.withdraw(id);
    }

    /// The booked task of this key, if any, is taken out.
    pub(crate) fn drop_task(&mut self, key: LaunchKey)
        ensures { self.new ≡ map (without_key key) self.old }
    {
        let _forgotten = self.forget(key);
    }
}
