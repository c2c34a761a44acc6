//! The book of all agents.

ghost use Rattle.std.specs.Prelude.{◌≡◌, ◌<◌, ℕ, [], Ok, map, length, option_map, OnOk, OnErr, IfOk, IfErr};
ghost use Rattle.std.specs.List.{IsDistinct};
ghost use Rattle.names_core.specs.Ids.{Numbered};
ghost use Rattle.offer_book.specs.Lists.{same_id};
ghost use Rattle.offer_book.specs.Names.{is_among};
ghost use Rattle.offer_tables.specs.Books.{entered, dropped_from, emptied_on, free_of, offered, booked, withdrawn, task_ended, forgotten, received};
ghost use Rattle.offer_tables.specs.Found.{made, place, offer_of, offers_on, task_of, tasks_on};
ghost use Rattle.offer_tables.specs.Held.{AreKeyed, all_placed, held, is_framework_of, placed_of};
ghost use Rattle.offer_tables.specs.Faults.{IsRefusal, IsDue};

use crate::agents::{self, AgentRow};
use crate::entering;
use crate::fault::BookFault;
use indexmap::IndexSet;
use messages::{Booked, Offer};
use names_core::{AgentName, FrameworkId, LaunchKey, OfferId, TaskName};
use offer_book::{BookedTasks, Offers, TaskUpdate};
use quantity::Resources;
use std::alloc::{AllocError, Global};
use std::marker::Model;

/// Agents' totals, current offers and booked tasks: an account for each agent that ever entered,
/// in order of first entering. An account keeps its place.
#[derive(Drop)]
pub struct OfferBook {
    pub(crate) names: IndexSet<AgentName>,
    pub(crate) agents: Vec<AgentRow>,
    pub(crate) offers: Offers,
    pub(crate) tasks: BookedTasks,
}

impl Model for OfferBook {
    ghost use Rattle.std.specs.Prelude.{List};
    ghost use Rattle.offer_tables.specs.Accounts.{Account};
    ghost use Rattle.offer_tables.specs.Rows.{IsBook, accounts};

    ghost Value = { List Account };

    ghost view = { λ b. accounts b.agents.items b.offers b.tasks };

    ghost invariant = { λ b. IsBook b.names.keys b.agents.items b.offers b.tasks };
}

impl OfferBook {
    /// A book without agents.
    pub fn new(alloc: Global) -> OfferBook
        ensures { result ≡ [] }
    {
        OfferBook {
            names: IndexSet::new(alloc),
            agents: Vec::new(alloc),
            offers: Offers::new(alloc),
            tasks: BookedTasks::new(alloc),
        }
    }

    /// An agent enters with what it owns, at the end or at its old place.
    /// `B3 Twice` where it is in already.
    pub fn enter_agent(
        &mut self,
        alloc: Global,
        name: AgentName,
        total: Resources,
    ) -> Result<(), BookFault>
        ensures ok { OnOk result (entered name total self.old ≡ Ok self.new) }
        ensures refused { IfErr result (λ fault. IsRefusal fault (entered name total self.old)) }
        ensures err { OnErr result (self.new ≡ self.old) }
    {
        let Some(place) = agents::named_place(&self.names, &self.agents, &name) else {
            let (names, agents) = (&mut self.names, &mut self.agents);
            let (offers, tasks) = (&mut self.offers, &mut self.tasks);
            entering::append(names, agents, offers, tasks, alloc, name, total)?;
            return Ok(());
        };
        if self.agents[place].is_in {
            return Err(BookFault::Twice);
        }
        agents::occupy(&mut self.agents, place, total);
        Ok(())
    }

    /// An agent's total less current offers and booked tasks that haven't ended.
    /// `B1 Unknown` where no agent of this name is in.
    pub fn free(&self, name: &AgentName) -> Result<Resources, BookFault>
        ensures ok { IfOk result (λ rest. free_of name.now self.now ≡ Ok rest) }
        ensures refused { IfErr result (λ fault. IsRefusal fault (free_of name.now self.now)) }
    {
        let Some(place) = agents::place_of(&self.names, &self.agents, name) else {
            return Err(BookFault::Unknown);
        };
        let row = &self.agents[place];
        Ok(row.free.to_resources(*self.names.allocator(), &row.total)?)
    }

    /// Offers resources of an agent. Checked in this order: `B1 Unknown` where no agent of this
    /// name is in, `B3 Twice` where an offer of this id is current, `B2 NoRoom` where the agent's
    /// total has no room for the resources beside what is taken of it.
    pub fn offer(&mut self, name: &AgentName, offer: Offer) -> Result<(), BookFault>
        ensures ok { OnOk result (offered name.now offer self.old ≡ Ok self.new) }
        ensures refused { IfErr result
            (λ fault. IsRefusal fault (offered name.now offer self.old)) }
        ensures err { OnErr result (self.new ≡ self.old) }
    {
        let Some(place) = agents::place_of(&self.names, &self.agents, name) else {
            return Err(BookFault::Unknown);
        };
        if self.offers.find(offer.id).is_some() {
            return Err(BookFault::Twice);
        }
        let row = &self.agents[place];
        if !row.free.has_room(&row.total, &offer.resources) {
            return Err(BookFault::NoRoom);
        }
        let free = row.free.less(&row.total, &offer.resources);
        self.offers.push(place, offer)?;
        agents::set_free(&mut self.agents, place, free);
        Ok(())
    }

    /// Withdraws an offer. `B1 Unknown` where no offer of this id is current. It takes no memory.
    pub fn withdraw(&mut self, id: OfferId) -> Result<(), BookFault>
        ensures ok { OnOk result (withdrawn id self.old ≡ Ok self.new) }
        ensures refused { IfErr result (λ fault. IsDue (withdrawn id self.old) fault) }
        ensures err { OnErr result (self.new ≡ self.old) }
    {
        let Some(located) = self.offers.remove(id) else {
            return Err(BookFault::Unknown);
        };
        agents::give_back(&mut self.agents, located.place, &located.item.resources);
        Ok(())
    }

    /// Books a task on an agent. Checked in this order: `B1 Unknown` where no agent of this name is
    /// in, `B3 Twice` where a task of this key is booked, `B2 NoRoom` where the agent's total has
    /// no room for what the task uses beside what is taken of it. A task that has ended uses
    /// nothing.
    pub fn book(&mut self, alloc: Global, name: &AgentName, task: Booked) -> Result<(), BookFault>
        ensures ok { OnOk result (booked name.now task self.old ≡ Ok self.new) }
        ensures refused { IfErr result (λ fault. IsRefusal fault (booked name.now task self.old)) }
        ensures err { OnErr result (self.new ≡ self.old) }
    {
        let Some(place) = agents::place_of(&self.names, &self.agents, name) else {
            return Err(BookFault::Unknown);
        };
        let job = &task.job;
        if self.tasks.find(job.key).is_some() {
            return Err(BookFault::Twice);
        }
        let row = &self.agents[place];
        if !agents::has_room_for(row, &task) {
            return Err(BookFault::NoRoom);
        }
        let free = agents::with_task(row, &task);
        self.tasks.push(alloc, place, task)?;
        agents::set_free(&mut self.agents, place, free);
        Ok(())
    }

    /// Marks a booked task as ended: its resources are free again.
    /// `B1 Unknown` where no task of this key is booked. It takes no memory.
    pub fn end_task(&mut self, key: LaunchKey) -> Result<(), BookFault>
        ensures ok { OnOk result (task_ended key self.old ≡ Ok self.new) }
        ensures refused { IfErr result (λ fault. IsDue (task_ended key self.old) fault) }
        ensures err { OnErr result (self.new ≡ self.old) }
    {
        let Some(located) = self.tasks.find(key) else {
            return Err(BookFault::Unknown);
        };
        agents::give_back_task(&mut self.agents, located.place, &located.item);
        self.tasks.end(key);
        Ok(())
    }

    /// Takes a booked task out of the book.
    /// `B1 Unknown` where no task of this key is booked. It takes no memory.
    pub fn forget(&mut self, key: LaunchKey) -> Result<(), BookFault>
        ensures ok { OnOk result (forgotten key self.old ≡ Ok self.new) }
        ensures refused { IfErr result (λ fault. IsDue (forgotten key self.old) fault) }
        ensures err { OnErr result (self.new ≡ self.old) }
    {
        let Some(located) = self.tasks.remove(key) else {
            return Err(BookFault::Unknown);
        };
        agents::give_back_task(&mut self.agents, located.place, &located.item);
        Ok(())
    }

    /// An update of a task is received; nothing happens where no task of its key is booked. It
    /// takes no memory.
    pub fn receive(&mut self, update: &TaskUpdate)
        requires { update.now.k < 4294967295 }
        ensures { self.new ≡ received update.now self.old }
    {
        let Some(located) = self.tasks.find(update.key) else {
            return;
        };
        agents::settle(&mut self.agents, located.place, &located.item, update.ended);
        self.tasks.receive(update);
    }

    /// An agent leaves, and with it its offers and booked tasks; its account keeps its place.
    /// `B1 Unknown` where no agent of this name is in. It takes no memory.
    pub fn drop_agent(&mut self, alloc: Global, name: &AgentName) -> Result<(), BookFault>
        ensures ok { OnOk result (dropped_from name.now self.old ≡ Ok self.new) }
        ensures refused { IfErr result (λ fault. IsDue (dropped_from name.now self.old) fault) }
        ensures err { OnErr result (self.new ≡ self.old) }
    {
        let Some(place) = agents::place_of(&self.names, &self.agents, name) else {
            return Err(BookFault::Unknown);
        };
        agents::vacate(&mut self.agents, alloc, place);
        self.offers.clear(place);
        self.tasks.clear(place);
        Ok(())
    }

    /// An agent's session opens or ends: its offers and booked tasks are removed, and the agent
    /// owns this total. `B1 Unknown` where no agent of this name is in. It takes no memory.
    pub fn empty_agent(&mut self, name: &AgentName, total: Resources) -> Result<(), BookFault>
        ensures ok { OnOk result (emptied_on name.now total self.old ≡ Ok self.new) }
        ensures refused { IfErr result (λ fault. IsDue (emptied_on name.now total self.old) fault) }
        ensures err { OnErr result (self.new ≡ self.old) }
    {
        let Some(place) = agents::place_of(&self.names, &self.agents, name) else {
            return Err(BookFault::Unknown);
        };
        agents::reset(&mut self.agents, place, total);
        self.offers.clear(place);
        self.tasks.clear(place);
        Ok(())
    }
}

/// Look-ups.
impl OfferBook {
    /// The offer of this id, if it is current, and its agent.
    pub fn offer_of(&self, id: OfferId) -> Option<(&AgentName, &Offer)>
        ensures { option_map (λ o. made o.0.now o.1.now) result ≡ offer_of id self.now }
    {
        let Some(located) = self.offers.find(id) else {
            return None;
        };
        let row = &self.agents[located.place];
        Some((&row.name, &located.item))
    }

    /// The booked task of this key, if any, and its agent.
    pub fn task_of(&self, key: LaunchKey) -> Option<(&AgentName, &Booked)>
        ensures { option_map (λ t. place t.0.now t.1.now) result ≡ task_of key self.now }
    {
        let Some(located) = self.tasks.find(key) else {
            return None;
        };
        let row = &self.agents[located.place];
        Some((&row.name, &located.item))
    }

    /// The booked task of a framework with this name, if any, and its agent. Of several it is one
    /// that hasn't ended, if there is one, and of these the one with the least launch key. It
    /// takes no memory.
    pub fn held(&self, framework: FrameworkId, name: &TaskName) -> Option<(&AgentName, &Booked)>
        ensures { option_map (λ t. place t.0.now t.1.now) result
            ≡ held framework name.now self.now }
    {
        let Some(located) = self.tasks.held(framework, name) else {
            return None;
        };
        let row = &self.agents[located.place];
        Some((&row.name, &located.item))
    }

    /// The launch keys of a framework's booked tasks on all agents, in no order.
    pub fn keys_of(
        &self,
        alloc: Global,
        framework: FrameworkId,
    ) -> Result<Vec<LaunchKey>, AllocError>
        ensures keys { IfOk result (λ keys. (key : Numbered) → is_among key keys.items
            ≡ is_framework_of framework (placed_of key (all_placed self.now))) }
        ensures apart { AreKeyed (all_placed self.now) }
    {
        self.tasks.keys_of(alloc, framework)
    }

    /// How many agents ever entered.
    pub fn len(&self) -> usize
        ensures { result ≡ length self.now }
    {
        self.agents.len()
    }

    /// The ids of the current offers on the agent at a place, in order of their making; none past
    /// the end.
    pub fn offers_on(&self, place: usize) -> &[OfferId]
        ensures ids { result.now ≡ map (λ o. o.id) (offers_on place self.now) }
        ensures apart { IsDistinct same_id result.now }
    {
        self.offers.ids_at(place)
    }

    /// The launch keys of the tasks that are booked on the agent at a place, in the order in which
    /// they were booked; none past the end.
    pub fn tasks_on(&self, place: usize) -> &[LaunchKey]
        ensures keys { result.now ≡ map (λ b. b.job.key) (tasks_on place self.now) }
        ensures apart { IsDistinct same_id result.now }
    {
        self.tasks.keys_at(place)
    }
}
