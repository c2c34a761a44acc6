//! What is free of an agent's total, as an amount for each resource that it owns.

ghost use Rattle.std.specs.Prelude.{◌≡◌, [], List, nat_le, slice_index_or, IfOk};
ghost use Rattle.quantity.specs.Rows.{amount, rest_of, AreRows};
ghost use Rattle.quantity.specs.declared.rows.Row.{Row as Amount};
ghost use Rattle.offer_tables.specs.Rows.{GivesBack, TakesMore, amounts_left, has_room_in, left_at};

use arrayvec::ArrayVec;
use quantity::{Resources, Row};
use std::alloc::{AllocError, Global};
use std::marker::Model;

/// An amount for each row of a total, in their order. It takes no memory: a total has at most
/// eight rows.
#[derive(Drop)]
pub(crate) struct FreePart {
    amounts: ArrayVec<u64, 8>,
}

impl Model for FreePart {
    ghost use Rattle.std.specs.Prelude.{List, ℕ};

    ghost Value = { List ℕ };

    ghost view = { λ f. f.amounts.items };
}

impl FreePart {
    /// The amount of a row, 0 past the end.
    fn amount_at(&self, place: usize) -> u64
        ensures { result ≡ slice_index_or self.now place 0 }
    {
        match self.amounts.as_slice().get(place) {
            Some(amount) => *amount,
            None => 0,
        }
    }

    /// All of a total.
    pub fn whole(total: &Resources) -> FreePart
        ensures { result ≡ amounts_left total.now [] }
    {
        let mut amounts = ArrayVec::new();
        for row in total.rows() {
            amounts.push(row.amount);
        }
        FreePart { amounts }
    }

    /// The same amounts.
    pub fn copied(&self) -> FreePart
        ensures { result ≡ self.now }
    {
        let mut amounts = ArrayVec::new();
        for amount in self.amounts.as_slice() {
            amounts.push(*amount);
        }
        FreePart { amounts }
    }

    /// What is left of a total once more is taken.
    pub fn less(&self, total: &Resources, more: &Resources) -> FreePart
        ensures { TakesMore total.now more.now self.now result }
    {
        let mut amounts = ArrayVec::new();
        for (place, row) in total.rows().iter().enumerate() {
            let taken = more.get(row.name.as_str());
            amounts.push(self.amount_at(place).saturating_sub(taken));
        }
        FreePart { amounts }
    }

    /// What is left of a total once what was taken is given back.
    pub fn with_back(&self, total: &Resources, more: &Resources) -> FreePart
        ensures { GivesBack total.now more.now self.now result }
    {
        let mut amounts = ArrayVec::new();
        for (place, row) in total.rows().iter().enumerate() {
            let taken = row.amount.saturating_sub(self.amount_at(place));
            let stays = taken.saturating_sub(more.get(row.name.as_str()));
            amounts.push(row.amount.saturating_sub(stays));
        }
        FreePart { amounts }
    }

    /// What is left of a resource.
    fn of(&self, total: &Resources, name: &str) -> u64
        ensures { result ≡ left_at name.now total.now self.now }
    {
        for (place, row) in total.rows().iter().enumerate() {
            if row.name.as_str() == name {
                return self.amount_at(place);
            }
        }
        0
    }

    /// Whether as much is left of the resource of a row as more has of it.
    fn has_room_of(&self, total: &Resources, more: &Resources, row: &Row) -> bool
        ensures { result ≡ nat_le (amount row.now.name more.now)
            (left_at row.now.name total.now self.now) }
    {
        let name = row.name.as_str();
        more.get(name) <= self.of(total, name)
    }

    /// Whether there is room for more.
    pub fn has_room(&self, total: &Resources, more: &Resources) -> bool
        ensures room { result ≡ has_room_in total.now self.now more.now }
        ensures ordered { AreRows total.now }
    {
        let _ordered = total.rows();
        more.rows()
            .iter()
            .all(|row| self.has_room_of(total, more, row))
    }

    /// As resources: a name of which nothing is left has no row.
    pub fn to_resources(&self, alloc: Global, total: &Resources) -> Result<Resources, AllocError>
        ensures { (taken : List Amount) → self.now ≡ amounts_left total.now taken
            → IfOk result (λ rest. rest ≡ rest_of total.now taken) }
    {
        let mut rest = Resources::new(alloc);
        for (place, row) in total.rows().iter().enumerate() {
            if let Err(_) = rest.add(alloc, row.name.as_str(), self.amount_at(place)) {
                return Err(AllocError);
            }
        }
        let _ordered = total.rows();
        let _rows = rest.rows();
        Ok(rest)
    }
}
