//! The master's side of one agent, as it is read.

ghost use Rattle.std.specs.Prelude.{◌≡◌, slice_get, bytes_eq, IfOk};
ghost use Rattle.std.specs.List.{find};
ghost use Rattle.std.specs.Iterator.{YieldsFirst, item_count};
ghost use Rattle.names_core.specs.Ids.{same};
ghost use Rattle.quantity.specs.Rows.{AreRows};
ghost use Rattle.cluster_model.specs.Calls.{has_tasks_of};
ghost use Rattle.cluster_model.specs.Masters.{has_numbers, has_returned};
ghost use Rattle.cluster_model.specs.Rounds.{free};

use crate::sides::Sides;
use messages::Booked;
use names_core::{AgentName, FrameworkId};
use offer_tables::{AccountAt, OfferBook, OffersAt, TasksAt};
use quantity::Resources;
use roster::RosterEntry;
use std::alloc::AllocError;
use std::marker::Model;

/// What the master has of one agent.
#[derive(Drop)]
pub struct AgentSide<'a> {
    entry: &'a RosterEntry,
    account: AccountAt<'a>,
}

impl<'a> Model for AgentSide<'a> {
    ghost use Rattle.cluster_model.specs.Sides.{Side};
    ghost use Rattle.master_agents.specs.Joined.{join};

    ghost Value = { Side };

    ghost view = { λ a. join a.entry.now a.account };
}

fn is_of(task: &Booked, framework: FrameworkId) -> bool
    ensures { result ≡ same task.now.job.framework framework }
{
    task.job.framework == framework
}

impl<'a> AgentSide<'a> {
    pub fn name(&self) -> &'a AgentName
        ensures { result.now ≡ self.now.name }
    {
        self.entry.name()
    }

    /// Whether a session is open.
    pub fn is_open(&self) -> bool
        ensures { result ≡ self.now.is_open }
    {
        self.entry.is_open()
    }

    /// Whether the agent has opened a session in this run.
    pub fn has_returned(&self) -> bool
        ensures { result ≡ has_returned self.now }
    {
        self.entry.has_returned()
    }

    /// Whether so many command numbers are left in the session.
    pub fn has_numbers(&self, count: u64) -> bool
        ensures { result ≡ has_numbers count self.now }
    {
        self.entry.has_numbers(count)
    }

    /// What the agent owns.
    pub fn total(&self) -> &'a Resources
        ensures total { result.now ≡ self.now.total }
        ensures rows { AreRows result.now }
    {
        self.account.total()
    }

    /// The current offers on the agent, in order of their making.
    pub fn offers(&self) -> OffersAt<'a>
        ensures { result ≡ self.now.offers }
    {
        self.account.offers()
    }

    /// The tasks that are booked on the agent, ended ones too.
    pub fn tasks(&self) -> TasksAt<'a>
        ensures { result ≡ self.now.booked }
    {
        self.account.tasks()
    }

    /// What the agent owns less current offers and booked tasks that haven't ended.
    pub fn free(&self) -> Result<Resources, AllocError>
        ensures { IfOk result (λ rest. rest ≡ free self.now) }
    {
        self.account.free()
    }

    /// Whether a task of the framework is booked on the agent, ended ones too.
    pub fn has_tasks_of(&self, framework: FrameworkId) -> bool
        ensures { result ≡ has_tasks_of framework self.now }
    {
        for task in self.tasks() {
            if is_of(task, framework) {
                return true;
            }
        }
        false
    }
}

/// The master's sides of agents, one after the other, seen as the list of those that are left.
#[derive(Drop)]
pub struct Agents<'a> {
    entries: &'a [RosterEntry],
    book: &'a OfferBook,
    place: usize,
}

impl<'a> Model for Agents<'a> {
    ghost use Rattle.std.specs.Prelude.{◌+◌, ◌≤◌, List, drop, length};
    ghost use Rattle.cluster_model.specs.Sides.{Side};
    ghost use Rattle.master_agents.specs.Joined.{AgentsLeft, joined};

    ghost Value = { List Side };

    ghost view = { λ a. joined a.entries.now (drop a.place a.book.now) };

    ghost invariant = { λ a. AgentsLeft a.entries.now a.book.now a.place };
}

impl<'a> Iterator for Agents<'a> {
    type Item = AgentSide<'a>;

    ghost next_gives = { YieldsFirst (λ rest. rest) };

    ghost remaining = { item_count (λ rest. rest) };

    fn next(&mut self) -> Option<AgentSide<'a>> {
        let Some((entry, others)) = self.entries.split_first() else {
            return None;
        };
        let Some(account) = self.book.account_at(self.place) else {
            return None;
        };
        self.entries = others;
        self.place += 1;
        Some(AgentSide { entry, account })
    }
}

/// Reading agent by agent.
impl Sides {
    /// The agents, in order.
    pub fn iter(&self) -> Agents<'_>
        ensures { result ≡ self.now }
    {
        Agents {
            entries: self.roster.entries(),
            book: &self.book,
            place: 0,
        }
    }

    /// The agent at a place, if there is one.
    pub fn at(&self, place: usize) -> Option<AgentSide<'_>>
        ensures { result ≡ slice_get self.now place }
    {
        let entries = self.roster.entries();
        if place >= entries.len() {
            return None;
        }
        let Some(account) = self.book.account_at(place) else {
            return None;
        };
        let entry = &entries[place];
        Some(AgentSide { entry, account })
    }

    /// The agent of a name, if it is configured.
    pub fn agent(&self, name: &AgentName) -> Option<AgentSide<'_>>
        ensures { result ≡ find (λ s. bytes_eq s.name name.now) self.now }
    {
        match self.place_of(name) {
            Some(place) => self.at(place),
            None => None,
        }
    }
}
