//! The offers and the tasks at a place, one after the other.

ghost use Rattle.std.specs.Iterator.{YieldsFirstRef, item_count};

use crate::located::Located;
use indexmap::IndexMap;
use messages::{Booked, Offer};
use names_core::{LaunchKey, OfferId};
use std::marker::Model;

/// The offers at a place, in the order in which they were made, seen as the list of those that are
/// left. It takes no memory.
#[derive(Drop)]
pub struct OffersAt<'a> {
    pub(crate) by_id: &'a IndexMap<OfferId, Located<Offer>>,
    pub(crate) ids: &'a [OfferId],
}

impl<'a> Model for OffersAt<'a> {
    ghost use Rattle.std.specs.Prelude.{List};
    ghost use Rattle.messages.specs.declared.task.Offer.{Offer};
    ghost use Rattle.offer_book.specs.Tables.{AreFound, items_of};

    ghost Value = { List Offer };

    ghost view = { λ o. items_of o.by_id.now.entries o.ids.now };

    ghost invariant = { λ o. AreFound o.by_id.now.entries o.ids.now };
}

impl<'a> Iterator for OffersAt<'a> {
    type Item = &'a Offer;

    ghost next_gives = { YieldsFirstRef (λ rest. rest) };

    ghost remaining = { item_count (λ rest. rest) };

    fn next(&mut self) -> Option<&'a Offer> {
        let (id, others) = self.ids.split_first()?;
        let located = self.by_id.get(id)?;
        self.ids = others;
        Some(&located.item)
    }
}

/// The booked tasks at a place, in the order in which they were booked, seen as the list of those
/// that are left. It takes no memory.
#[derive(Drop)]
pub struct TasksAt<'a> {
    pub(crate) by_key: &'a IndexMap<LaunchKey, Located<Booked>>,
    pub(crate) keys: &'a [LaunchKey],
}

impl<'a> Model for TasksAt<'a> {
    ghost use Rattle.std.specs.Prelude.{List};
    ghost use Rattle.messages.specs.declared.task.Booked.{Booked};
    ghost use Rattle.offer_book.specs.Tables.{AreFound, items_of};

    ghost Value = { List Booked };

    ghost view = { λ t. items_of t.by_key.now.entries t.keys.now };

    ghost invariant = { λ t. AreFound t.by_key.now.entries t.keys.now };
}

impl<'a> Iterator for TasksAt<'a> {
    type Item = &'a Booked;

    ghost next_gives = { YieldsFirstRef (λ rest. rest) };

    ghost remaining = { item_count (λ rest. rest) };

    fn next(&mut self) -> Option<&'a Booked> {
        let (key, others) = self.keys.split_first()?;
        let located = self.by_key.get(key)?;
        self.keys = others;
        Some(&located.item)
    }
}
