//! What a framework has on all agents: its offers, and its booked tasks.

ghost use Rattle.std.specs.Prelude.{◌≡◌, ◌++◌, ◌∷◌, ◌&&◌, ℕ, [], map, not, option_map, OnOk, IfOk, IfSome};
ghost use Rattle.std.specs.List.{find, list_all, list_any};
ghost use Rattle.names_core.specs.Ids.{Numbered, same};
ghost use Rattle.quantity.specs.Rows.{AreRows, plus_rows};
ghost use Rattle.cluster_model.specs.Ids.{is_empty, is_repeated};
ghost use Rattle.cluster_model.specs.Sides.{has_offer, is_good, is_named, offer_rows, used_offers, without_used};
ghost use Rattle.cluster_model.specs.Calls.{has_tasks_of};
ghost use Rattle.cluster_model.specs.Masters.{has_numbers};
ghost use Rattle.roster.specs.Places.{at_place};
ghost use Rattle.offer_book.specs.Names.{is_among};
ghost use Rattle.offer_tables.specs.Found.{place};
ghost use Rattle.offer_tables.specs.Held.{AreKeyed, is_framework_of, placed_of};
ghost use Rattle.master_agents.specs.Looks.{all_placed, at_name};
ghost use Rattle.master_agents.specs.Own.{named_rows, sides_with_tasks, sum_on};

use crate::agent::AgentSide;
use crate::placed;
use crate::sides::Sides;
use messages::{Booked, Offer};
use names_core::{AgentName, FrameworkId, LaunchKey, OfferId};
use quantity::Resources;
use std::alloc::{AllocError, Global};
use values::{Listed, Plain};

/// The agent of offers that a framework may use together, and their sum.
#[derive(Drop)]
pub struct GoodOffers {
    pub agent: AgentName,
    /// What the offers have together.
    pub sum: Resources,
}

/// Whether some id is listed twice.
fn is_repeated(ids: &[OfferId]) -> bool
    ensures { result ≡ is_repeated ids.now }
{
    let mut rest = ids;
    while let Some((id, others)) = rest.split_first() {
        if others.contains(id) {
            return true;
        }
        rest = others;
    }
    false
}

fn is_offered_to(offer: &Offer, framework: FrameworkId, id: OfferId) -> bool
    ensures { result ≡ (same offer.now.framework framework && same offer.now.id id) }
{
    offer.framework == framework && offer.id == id
}

/// Whether an offer of this id to the framework is current on the agent.
fn has_offer(side: &AgentSide<'_>, framework: FrameworkId, id: OfferId) -> bool
    ensures { result ≡ has_offer side.now framework id }
{
    for offer in side.offers() {
        if is_offered_to(offer, framework, id) {
            return true;
        }
    }
    false
}

fn has_offers(side: &AgentSide<'_>, framework: FrameworkId, ids: &[OfferId]) -> bool
    ensures { result ≡ list_all (has_offer side.now framework) ids.now }
{
    for id in ids {
        if !has_offer(side, framework, *id) {
            return false;
        }
    }
    true
}

fn are_good(side: &AgentSide<'_>, framework: FrameworkId, ids: &[OfferId]) -> bool
    ensures { result ≡ (not (is_empty ids.now) && not (is_repeated ids.now)
        && list_all (has_offer side.now framework) ids.now) }
{
    if ids.is_empty() || !has_offers(side, framework, ids) {
        return false;
    }
    !is_repeated(ids)
}

/// Whether the offers of these ids are good on the agent.
fn is_good(side: &AgentSide<'_>, framework: FrameworkId, ids: &[OfferId]) -> bool
    ensures { result ≡ is_good side.now framework ids.now }
{
    if !side.is_open() {
        return false;
    }
    are_good(side, framework, ids)
}

/// Whether a task of the framework is booked on the agent, and its session has no command number
/// left.
fn lacks_a_number(side: &AgentSide<'_>, framework: FrameworkId) -> bool
    ensures { result ≡ (has_tasks_of framework side.now && not (has_numbers 1 side.now)) }
{
    side.has_tasks_of(framework) && !side.has_numbers(1)
}

fn is_named(offer: &Offer, framework: FrameworkId, ids: &[OfferId]) -> bool
    ensures { result ≡ is_named framework ids.now offer.now }
{
    offer.framework == framework && ids.contains(&offer.id)
}

fn add(sum: &mut Resources, alloc: Global, more: &Resources) -> Result<(), AllocError>
    ensures { OnOk result (sum.new ≡ plus_rows sum.old more.now) }
{
    match sum.plus(alloc, more) {
        Ok(both) => {
            *sum = both;
            Ok(())
        }
        Err(_) => Err(AllocError),
    }
}

fn add_if_named(
    sum: &mut Resources,
    alloc: Global,
    offer: &Offer,
    framework: FrameworkId,
    ids: &[OfferId],
) -> Result<(), AllocError>
    ensures { OnOk result (sum.new ≡ plus_rows sum.old (named_rows framework ids.now offer.now)) }
{
    if is_named(offer, framework, ids) {
        add(sum, alloc, &offer.resources)?;
    }
    Ok(())
}

/// The sum of a framework's offers of these ids on the agent. A sum past the limits of resources,
/// which offers that fit the total don't have, is refused as if memory were.
fn named_sum(
    alloc: Global,
    side: &AgentSide<'_>,
    framework: FrameworkId,
    ids: &[OfferId],
) -> Result<Resources, AllocError>
    ensures { IfOk result (λ sum. sum
        ≡ plus_rows [] (offer_rows (used_offers side.now framework ids.now))) }
{
    let mut sum = Resources::new(alloc);
    for offer in side.offers() {
        add_if_named(&mut sum, alloc, offer, framework, ids)?;
    }
    Ok(sum)
}

fn push_if_has_tasks(
    names: &mut Listed<AgentName>,
    side: &AgentSide<'_>,
    framework: FrameworkId,
) -> Result<(), AllocError>
    ensures { OnOk result (names.new ≡ names.old
        ++ map (λ s. s.name) (sides_with_tasks framework (side.now ∷ []))) }
{
    if side.has_tasks_of(framework) {
        names.push(side.name().copy()?)?;
    }
    Ok(())
}

impl GoodOffers {
    /// The sum of a framework's offers of these ids on an agent, with its name.
    fn on(
        alloc: Global,
        side: &AgentSide<'_>,
        framework: FrameworkId,
        ids: &[OfferId],
    ) -> Result<GoodOffers, AllocError>
        ensures good { IfOk result (λ good. good ≡ sum_on framework ids.now side.now) }
        ensures rows { IfOk result (λ good. AreRows good.sum) }
    {
        let agent = side.name().copy()?;
        let sum = named_sum(alloc, side, framework, ids)?;
        let _rows = sum.rows();
        Ok(GoodOffers { agent, sum })
    }

    /// The agent on which the offers of these ids are good, and their sum, where there is one.
    pub fn of(
        alloc: Global,
        side: &Option<AgentSide<'_>>,
        framework: FrameworkId,
        ids: &[OfferId],
    ) -> Result<Option<GoodOffers>, AllocError>
        ensures good { IfOk result (λ good. good
            ≡ option_map (sum_on framework ids.now) side.now) }
        ensures rows { IfOk result (λ good. IfSome good (λ offers. AreRows offers.sum)) }
    {
        match side {
            None => Ok(None),
            Some(side) => Ok(Some(GoodOffers::on(alloc, side, framework, ids)?)),
        }
    }
}

impl Sides {
    /// The agent on which a framework may use the offers of these ids together: it has an open
    /// session, there are some ids, none is listed twice, and each is that of a current offer there
    /// to the framework. Only the agent of the first id is looked at. It takes no memory.
    pub fn good_side(&self, framework: FrameworkId, ids: &[OfferId]) -> Option<AgentSide<'_>>
        ensures { result ≡ find (λ s. is_good s framework ids.now) self.now }
    {
        let Some(id) = ids.first() else {
            return None;
        };
        let Some(located) = self.book.offer_place(*id) else {
            return None;
        };
        let Some(side) = self.at(located.place) else {
            return None;
        };
        if is_good(&side, framework, ids) {
            Some(side)
        } else {
            None
        }
    }

    /// Whether the session of an agent with booked tasks of a framework has no command number left.
    pub fn lacks_numbers(&self, framework: FrameworkId) -> bool
        ensures { result ≡ list_any (λ s. not (has_numbers 1 s))
            (sides_with_tasks framework self.now) }
    {
        for side in self.iter() {
            if lacks_a_number(&side, framework) {
                return true;
            }
        }
        false
    }

    /// The names of the agents with booked tasks of a framework, ended ones too.
    pub fn agents_with_tasks(
        &self,
        alloc: Global,
        framework: FrameworkId,
    ) -> Result<Listed<AgentName>, AllocError>
        ensures { IfOk result (λ names. names ≡ map (λ s. s.name)
            (sides_with_tasks framework self.now)) }
    {
        let mut names = Listed::new(alloc);
        for side in self.iter() {
            push_if_has_tasks(&mut names, &side, framework)?;
        }
        Ok(names)
    }

    fn withdraw_used_at(&mut self, place: usize, framework: FrameworkId, ids: &[OfferId])
        ensures { self.new ≡ at_place place (λ s. without_used s framework ids.now) self.old }
    {
        let entries = self.roster.entries();
        placed::withdraw_named_at(entries, &mut self.book, place, framework, ids);
    }

    /// Withdraws the offers to a framework on the agent of a name that
    /// have one of these ids. It takes no memory.
    pub fn withdraw_used(&mut self, name: &AgentName, framework: FrameworkId, ids: &[OfferId])
        ensures { self.new ≡ at_name name.now (λ s. without_used s framework ids.now) self.old }
    {
        if let Some(place) = self.place_of(name) {
            self.withdraw_used_at(place, framework, ids);
        }
    }
}

/// Booked tasks by their launch keys.
impl Sides {
    /// The launch keys of a framework's booked tasks on all agents, in no order. It visits no other
    /// framework's tasks.
    pub fn keys_of(
        &self,
        alloc: Global,
        framework: FrameworkId,
    ) -> Result<Vec<LaunchKey>, AllocError>
        ensures keys { IfOk result (λ keys. (key : Numbered) → is_among key keys.items
            ≡ is_framework_of framework (placed_of key (all_placed self.now))) }
        ensures apart { AreKeyed (all_placed self.now) }
    {
        self.book.keys_of(alloc, framework)
    }

    /// The booked task of this key, if any, and its agent.
    pub fn task_of(&self, key: LaunchKey) -> Option<(&AgentName, &Booked)>
        ensures { option_map (λ t. place t.0.now t.1.now) result
            ≡ placed_of key (all_placed self.now) }
    {
        self.book.task_of(key)
    }
}
