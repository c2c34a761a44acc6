//! The accounts of agents, as they are read.

ghost use Rattle.std.specs.Prelude.{◌≡◌, length, slice_get, IfOk};
ghost use Rattle.quantity.specs.Rows.{AreRows};
ghost use Rattle.offer_tables.specs.Accounts.{free};
ghost use Rattle.offer_tables.specs.Found.{offers_on, tasks_on};
ghost use Rattle.offer_tables.specs.Held.{all_placed};

use crate::agents::AgentRow;
use crate::book::OfferBook;
use names_core::AgentName;
use offer_book::{BookedTasks, Offers, OffersAt, TasksAt};
use quantity::Resources;
use std::alloc::{AllocError, Global};
use std::marker::Model;

/// What a book has of one agent.
#[derive(Drop)]
pub struct AccountAt<'a> {
    row: &'a AgentRow,
    offers: &'a Offers,
    tasks: &'a BookedTasks,
    place: usize,
    alloc: Global,
}

impl<'a> Model for AccountAt<'a> {
    ghost use Rattle.offer_book.specs.Lists.{list_at};
    ghost use Rattle.offer_tables.specs.Accounts.{Account};
    ghost use Rattle.offer_tables.specs.Rows.{IsRow, account};

    ghost Value = { Account };

    ghost view = { λ a. account a.row.now (list_at a.place a.offers.now)
        (list_at a.place a.tasks.now) };

    ghost invariant = { λ a. IsRow a.row.now (list_at a.place a.offers.now)
        (list_at a.place a.tasks.now) };
}

impl<'a> AccountAt<'a> {
    pub fn name(&self) -> &'a AgentName
        ensures { result.now ≡ self.now.name }
    {
        &self.row.name
    }

    /// Whether the agent has entered, and wasn't dropped since.
    pub fn is_in(&self) -> bool
        ensures { result ≡ self.now.is_in }
    {
        self.row.is_in
    }

    /// What the agent owns.
    pub fn total(&self) -> &'a Resources
        ensures total { result.now ≡ self.now.total }
        ensures rows { AreRows result.now }
    {
        let _rows = self.row.total.rows();
        &self.row.total
    }

    /// The current offers on the agent, in order of their making.
    pub fn offers(&self) -> OffersAt<'a>
        ensures { result ≡ self.now.offers }
    {
        self.offers.at(self.place)
    }

    /// The tasks that are booked on the agent, in the order in which they were booked.
    pub fn tasks(&self) -> TasksAt<'a>
        ensures { result ≡ self.now.booked }
    {
        self.tasks.at(self.place)
    }

    /// The total less current offers and booked tasks that haven't ended.
    pub fn free(&self) -> Result<Resources, AllocError>
        ensures { IfOk result (λ rest. rest ≡ free self.now) }
    {
        self.row.free.to_resources(self.alloc, &self.row.total)
    }
}

impl OfferBook {
    /// What the book has of the agent at a place; nothing past the end.
    pub fn account_at(&self, place: usize) -> Option<AccountAt<'_>>
        ensures { result ≡ slice_get self.now place }
    {
        if place >= self.agents.len() {
            return None;
        }
        Some(AccountAt {
            row: &self.agents[place],
            offers: &self.offers,
            tasks: &self.tasks,
            place,
            alloc: *self.names.allocator(),
        })
    }

    /// The current offers on the agent at a place, in order of their making; none past the end.
    pub fn offers_at(&self, place: usize) -> OffersAt<'_>
        ensures { result ≡ offers_on place self.now }
    {
        self.offers.at(place)
    }

    /// The tasks that are booked on the agent at a place, in the order in which they were booked;
    /// none past the end.
    pub fn tasks_at(&self, place: usize) -> TasksAt<'_>
        ensures { result ≡ tasks_on place self.now }
    {
        self.tasks.at(place)
    }

    /// How many tasks are booked, ended ones too. It visits each agent.
    pub fn booked_count(&self) -> u128
        ensures { result ≡ length (all_placed self.now) }
    {
        let mut count = 0;
        for place in 0..self.len() {
            count += self.tasks_on(place).len() as u128;
        }
        count
    }
}
