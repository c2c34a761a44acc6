//! Current offers.

ghost use Rattle.std.specs.Prelude.{◌≡◌, ◌<◌, ◌++◌, ◌∷◌, [], None, List, if◌then◌else◌, length, map, filter, not, IfNone, OnOk, OnErr};
ghost use Rattle.std.specs.Option.{option_copied};
ghost use Rattle.std.specs.List.{list_any};
ghost use Rattle.std.specs.Map.{lookup};
ghost use Rattle.names_core.specs.Ids.{Numbered};
ghost use Rattle.messages.specs.declared.task.Offer.{Offer};
ghost use Rattle.offer_book.specs.Lists.{same_id, at_place, ids_of, list_at, find, without, Once};
ghost use Rattle.offer_book.specs.Tables.{id_lists};

use crate::located::Located;
use crate::walks::OffersAt;
use indexmap::IndexMap;
use messages::Offer;
use names_core::OfferId;
use std::alloc::{AllocError, Global};
use std::marker::Model;

/// Current offers, in a list for each place, in the order in which they were made.
#[derive(Drop)]
pub struct Offers {
    by_id: IndexMap<OfferId, Located<Offer>>,
    ids: Vec<Vec<OfferId>>,
}

impl Model for Offers {
    ghost use Rattle.std.specs.Prelude.{List};
    ghost use Rattle.messages.specs.declared.task.Offer.{Offer};
    ghost use Rattle.offer_book.specs.Tables.{IsTable, lists_of};

    ghost Value = { List (List Offer) };

    ghost view = { λ o. lists_of o.by_id.entries o.ids.items };

    ghost invariant = { λ o. IsTable (λ x. x.id) o.by_id.entries o.ids.items
        (lists_of o.by_id.entries o.ids.items) };
}

fn push_id(ids: &mut Vec<Vec<OfferId>>, place: usize, id: OfferId) -> Result<(), AllocError>
    requires { place < length ids.old.items }
    ensures ok { OnOk result (id_lists ids.new.items
        ≡ at_place place (λ ks. ks ++ id ∷ []) (id_lists ids.old.items)) }
    ensures err { OnErr result (id_lists ids.new.items ≡ id_lists ids.old.items) }
{
    ids[place].push(id)?;
    Ok(())
}

fn keep_others(ids: &mut Vec<OfferId>, id: OfferId)
    ensures { ids.new.items ≡ filter (λ k. not (same_id id k)) ids.old.items }
{
    ids.retain(|other| id != *other);
}

fn remove_id(ids: &mut Vec<Vec<OfferId>>, place: usize, id: OfferId)
    ensures { id_lists ids.new.items
        ≡ at_place place (λ ks. filter (λ k. not (same_id id k)) ks) (id_lists ids.old.items) }
{
    if place < ids.len() {
        keep_others(&mut ids[place], id);
    }
}

fn remove_each(by_id: &mut IndexMap<OfferId, Located<Offer>>, ids: &[OfferId])
    ensures { (q : Numbered) → lookup (same_id q) by_id.new.entries
        ≡ (if list_any (same_id q) ids.now then None
        else lookup (same_id q) by_id.old.entries) }
{
    for id in ids {
        by_id.swap_remove(id);
    }
}

fn clear_ids(ids: &mut Vec<Vec<OfferId>>, place: usize)
    ensures { id_lists ids.new.items ≡ at_place place (λ ks. []) (id_lists ids.old.items) }
{
    if place < ids.len() {
        ids[place].clear();
    }
}

impl Offers {
    /// No place.
    pub fn new(alloc: Global) -> Offers
        ensures { result ≡ [] }
    {
        Offers {
            by_id: IndexMap::new(alloc),
            ids: Vec::new(alloc),
        }
    }

    /// How many places there are.
    pub fn places(&self) -> usize
        ensures { result ≡ length self.now }
    {
        self.ids.len()
    }

    /// One place more, the last, with no offer.
    pub fn add_place(&mut self, alloc: Global) -> Result<(), AllocError>
        ensures ok { OnOk result (self.new ≡ self.old ++ [] ∷ []) }
        ensures err { OnErr result (self.new ≡ self.old) }
    {
        self.ids.push(Vec::new(alloc))?;
        Ok(())
    }

    /// The offer of this id, and its place.
    pub fn find(&self, id: OfferId) -> Option<&Located<Offer>>
        ensures found { option_copied result ≡ find (λ x. x.id) id self.now }
        ensures once { Once (λ x. x.id) 0 self.now }
    {
        self.by_id.get(&id)
    }

    /// One offer more at a place, the last there.
    pub fn push(&mut self, place: usize, offer: Offer) -> Result<(), AllocError>
        requires within { place < length self.old }
        requires new { find (λ x. x.id) offer.id self.old ≡ None }
        ensures ok { OnOk result (self.new ≡ at_place place (λ os. os ++ offer ∷ []) self.old) }
        ensures err { OnErr result (self.new ≡ self.old) }
    {
        let id = offer.id;
        let located = Located { place, item: offer };
        match self.by_id.insert(id, located) {
            Ok(_) => {}
            Err(_) => return Err(AllocError),
        }
        match push_id(&mut self.ids, place, id) {
            Ok(()) => Ok(()),
            Err(_) => {
                self.by_id.swap_remove(&id);
                Err(AllocError)
            }
        }
    }

    /// The offer of this id is removed, where there is one, and returned with its place.
    pub fn remove(&mut self, id: OfferId) -> Option<Located<Offer>>
        ensures removed { result ≡ find (λ x. x.id) id self.old }
        ensures others { self.new ≡ map (without (λ x. x.id) id) self.old }
        ensures none { IfNone result (self.new ≡ self.old) }
        ensures once { Once (λ x. x.id) 0 self.old }
    {
        match self.by_id.swap_remove(&id) {
            Some(located) => {
                remove_id(&mut self.ids, located.place, id);
                Some(located)
            }
            None => None,
        }
    }

    /// The ids of the offers at a place, in the order in which they were made; none past the end.
    pub fn ids_at(&self, place: usize) -> &[OfferId]
        ensures ids { result.now ≡ ids_of (λ x. x.id) (list_at place self.now) }
        ensures once { Once (λ x. x.id) 0 self.now }
    {
        if place < self.ids.len() {
            self.ids[place].as_slice()
        } else {
            &[]
        }
    }

    /// The offers at a place, in the order in which they were made; none past the end.
    pub fn at(&self, place: usize) -> OffersAt<'_>
        ensures { result ≡ list_at place self.now }
    {
        OffersAt {
            by_id: &self.by_id,
            ids: self.ids_at(place),
        }
    }

    /// The offers at a place are removed.
    pub fn clear(&mut self, place: usize)
        ensures { self.new ≡ at_place place (λ os. []) self.old }
    {
        if place < self.ids.len() {
            remove_each(&mut self.by_id, &self.ids[place]);
            clear_ids(&mut self.ids, place);
        }
    }
}
