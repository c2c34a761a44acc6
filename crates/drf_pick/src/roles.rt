//! Roles, found by their names, with what their frameworks hold.

ghost use Rattle.std.specs.Prelude.{◌≡◌, ◌++◌, ◌∷◌, [], None, true, false, length, Some, Err, IfOk, OnOk, OnErr, bytes_eq};
ghost use Rattle.std.specs.List.{find, position};
ghost use Rattle.cluster_model.specs.Ids.{bytes_before};
ghost use Rattle.quantity.specs.Rows.{rest_of};
ghost use Rattle.names_core.specs.Weights.{IsWeight};
ghost use Rattle.drf_shares.specs.Sums.{CanAdd, plus_rows};
ghost use Rattle.drf_pick.specs.Least.{role_share};
ghost use Rattle.drf_pick.specs.Shares.{AreWeighed, RolesOnce, is_role, at_first, role_given, role_holding, role_sum_with, roles_moved, roles_weighed, roles_with, role_has, role_returning, weighing, with_held};

use crate::holder::RoleSum;
use crate::ranks::{rank_at, ranks_of};
use drf_shares::{SharesFault, Sum};
use names_core::RoleName;
use quantity::Resources;
use std::alloc::{AllocError, Global};
use std::collections::BTreeMap;
use std::marker::Model;
use values::Plain;

/// Sums of roles, none listed twice. A role is found by its name in logarithmic time.
#[derive(Drop)]
pub(crate) struct Roles {
    sums: Vec<RoleSum>,
    /// The place of each role, by its name.
    places: BTreeMap<String, usize>,
    /// The rank of each role, at its place; empty where one was added since they were ranked.
    ranks: Vec<Option<usize>>,
}

impl Model for Roles {
    ghost use Rattle.std.specs.Prelude.{List};
    ghost use Rattle.std.specs.BTreeMap.{get_by_text};
    ghost use Rattle.drf_pick.specs.Shares.{AreWeighed, RoleSum, RolesOnce};
    ghost use Rattle.drf_pick.specs.Places.{AreFoundBy, AreRanks};

    ghost Value = { List RoleSum };

    ghost view = { λ roles. roles.sums.items };

    ghost invariant = { λ roles. ((RolesOnce roles.sums.items × AreWeighed roles.sums.items)
        × AreFoundBy (get_by_text roles.places) roles.sums.items)
        × AreRanks (get_by_text roles.places) roles.ranks.items };
}

fn give_at(
    sums: &mut Vec<RoleSum>,
    alloc: Global,
    place: usize,
    role: &RoleName,
    resources: &Resources,
) -> Result<(), AllocError>
    requires at { position (is_role role.now) sums.old.items ≡ Some place }
    requires room { CanAdd (role_share sums.old.items role.now).held resources.now }
    ensures ok { OnOk result (sums.new.items
        ≡ at_first (is_role role.now) (role_holding resources.now) sums.old.items) }
    ensures err { OnErr result (sums.new.items ≡ sums.old.items) }
{
    if sums[place].held.has_names_of(resources) {
        sums[place].held.add(resources);
        return Ok(());
    }
    let held = sums[place].held.plus(alloc, resources)?;
    sums[place].held = held;
    Ok(())
}

fn back_at(
    sums: &mut Vec<RoleSum>,
    alloc: Global,
    place: usize,
    role: &RoleName,
    resources: &Resources,
) -> Result<(), SharesFault>
    requires { position (is_role role.now) sums.old.items ≡ Some place }
    ensures ok { OnOk result (sums.new.items
        ≡ at_first (is_role role.now) (role_returning resources.now) sums.old.items) }
    ensures covered { OnOk result (role_has resources.now (find (is_role role.now) sums.old.items)
        ≡ true) }
    ensures refused { result ≡ Err SharesFault.NotHeld
        → role_has resources.now (find (is_role role.now) sums.old.items) ≡ false }
    ensures err { OnErr result (sums.new.items ≡ sums.old.items) }
{
    match sums[place].held.minus(alloc, resources) {
        Ok(held) => {
            sums[place].held = held;
            Ok(())
        }
        Err(fault) => Err(fault),
    }
}

fn push_sum(
    sums: &mut Vec<RoleSum>,
    alloc: Global,
    role: &RoleName,
    held: Sum,
) -> Result<(), AllocError>
    ensures ok { OnOk result (sums.new.items ≡ sums.old.items ++ role_sum_with role.now held ∷ []) }
    ensures err { OnErr result (sums.new.items ≡ sums.old.items) }
{
    sums.push(RoleSum::new(role.copy()?, held))?;
    Ok(())
}

impl Roles {
    /// No role is known. It takes no memory.
    pub fn new(alloc: Global) -> Roles
        ensures { result ≡ [] }
    {
        Roles {
            sums: Vec::new(alloc),
            places: BTreeMap::new(alloc),
            ranks: Vec::new(alloc),
        }
    }

    pub fn len(&self) -> usize
        ensures { result ≡ length self.now }
    {
        self.sums.len()
    }

    pub fn as_slice(&self) -> &[RoleSum]
        ensures sums { result.now ≡ self.now }
        ensures once { RolesOnce self.now }
        ensures weighed { AreWeighed self.now }
    {
        self.sums.as_slice()
    }

    /// The place of a role's sum. It is found at once where the guess is right.
    pub fn place(&self, guess: usize, role: &RoleName) -> Option<usize>
        ensures { result ≡ position (is_role role.now) self.now }
    {
        let sums = self.as_slice();
        if guess < sums.len() && sums[guess].is_of(role) {
            return Some(guess);
        }
        self.places.get(role.as_text()).copied()
    }

    pub fn give(
        &mut self,
        alloc: Global,
        guess: usize,
        role: &RoleName,
        resources: &Resources,
    ) -> Result<(), AllocError>
        requires { CanAdd (role_share self.old role.now).held resources.now }
        ensures ok { OnOk result (self.new
            ≡ at_first (is_role role.now) (role_holding resources.now) self.old) }
        ensures err { OnErr result (self.new ≡ self.old) }
    {
        let Some(place) = self.place(guess, role) else {
            return Ok(());
        };
        give_at(&mut self.sums, alloc, place, role, resources)
    }

    pub fn back(
        &mut self,
        alloc: Global,
        guess: usize,
        role: &RoleName,
        resources: &Resources,
    ) -> Result<(), SharesFault>
        ensures ok { OnOk result (self.new
            ≡ at_first (is_role role.now) (role_returning resources.now) self.old) }
        ensures covered { OnOk result (role_has resources.now (find (is_role role.now) self.old)
            ≡ true) }
        ensures refused { result ≡ Err SharesFault.NotHeld
            → role_has resources.now (find (is_role role.now) self.old) ≡ false }
        ensures err { OnErr result (self.new ≡ self.old) }
    {
        let Some(place) = self.place(guess, role) else {
            return Err(SharesFault::NotHeld);
        };
        back_at(&mut self.sums, alloc, place, role, resources)
    }

    /// One that isn't known is added, with what it holds.
    fn push(&mut self, alloc: Global, role: &RoleName, held: Sum) -> Result<(), AllocError>
        requires { find (is_role role.now) self.old ≡ None }
        ensures ok { OnOk result (self.new ≡ self.old ++ role_sum_with role.now held ∷ []) }
        ensures err { OnErr result (self.new ≡ self.old) }
    {
        let count = self.sums.len();
        let name = String::from_str(alloc, role.as_text())?;
        push_sum(&mut self.sums, alloc, role, held)?;
        match self.places.insert(name, count) {
            Ok(_) => {
                self.ranks.clear();
                Ok(())
            }
            Err(_) => {
                self.sums.truncate(count);
                Err(AllocError)
            }
        }
    }

    /// The place of a role's sum, which is added where there is none.
    /// It is found at once where the guess is right.
    pub fn add(&mut self, alloc: Global, guess: usize, role: &RoleName) -> Result<usize, AllocError>
        ensures ok { OnOk result (self.new
            ≡ roles_with role.now self.old (find (is_role role.now) self.old)) }
        ensures place { IfOk result (λ place. position (is_role role.now) self.new ≡ Some place) }
        ensures err { OnErr result (self.new ≡ self.old) }
    {
        if let Some(place) = self.place(guess, role) {
            return Ok(place);
        }
        let count = self.sums.len();
        self.push(alloc, role, Sum::new(alloc))?;
        Ok(count)
    }

    /// A role holds more; one that isn't known is added. The place of its sum. It is found at once
    /// where the guess is right.
    pub fn raise(
        &mut self,
        alloc: Global,
        guess: usize,
        role: &RoleName,
        more: &Sum,
    ) -> Result<usize, AllocError>
        requires { CanAdd (role_share self.old role.now).held more.now }
        ensures ok { OnOk result (self.new ≡ role_given role.now more.now self.old) }
        ensures err { OnErr result (self.new ≡ self.old) }
    {
        if let Some(place) = self.place(guess, role) {
            let held = self.sums[place].held.plus_sum(alloc, more)?;
            self.sums[place].held = held;
            return Ok(place);
        }
        let count = self.sums.len();
        let held = Sum::new(alloc).plus_sum(alloc, more)?;
        self.push(alloc, role, held)?;
        Ok(count)
    }

    /// What is left of what a role holds.
    fn rest_of(
        &self,
        alloc: Global,
        guess: usize,
        role: &RoleName,
        less: &Sum,
    ) -> Result<Sum, AllocError>
        ensures { IfOk result
            (λ rest. rest ≡ rest_of (role_share self.now role.now).held less.now) }
    {
        match self.place(guess, role) {
            Some(place) => self.sums[place].held.less_sum(alloc, less),
            None => Ok(Sum::new(alloc)),
        }
    }

    /// A role, if it is known, holds this.
    fn keep(&mut self, guess: usize, role: &RoleName, held: Sum)
        ensures { self.new ≡ at_first (is_role role.now) (with_held held) self.old }
    {
        if let Some(place) = self.place(guess, role) {
            self.sums[place].held = held;
        }
    }

    /// What was held of one role is held of another, which is added if it isn't known. The place of
    /// that one's sum. The place of the first is found at once where the guess is right.
    pub fn move_held(
        &mut self,
        alloc: Global,
        guess: usize,
        from: &RoleName,
        to: &RoleName,
        held: &Sum,
    ) -> Result<usize, AllocError>
        requires other { bytes_eq from.now to.now ≡ false }
        requires room { CanAdd (role_share self.old to.now).held held.now }
        ensures ok { OnOk result (self.new ≡ roles_moved from.now to.now held.now self.old) }
        ensures err { OnErr result (self.new ≡ self.old) }
    {
        let rest = self.rest_of(alloc, guess, from, held)?;
        let count = self.sums.len();
        let place = self.raise(alloc, count, to, held)?;
        self.keep(guess, from, rest);
        Ok(place)
    }

    /// A role has this weight; one that isn't known is added, and holds nothing.
    pub fn weigh(&mut self, alloc: Global, role: &RoleName, weight: u16) -> Result<(), AllocError>
        requires { IsWeight weight }
        ensures ok { OnOk result (self.new ≡ roles_weighed role.now weight self.old) }
        ensures err { OnErr result (self.new ≡ self.old) }
    {
        let count = self.sums.len();
        let place = self.add(alloc, count, role)?;
        self.sums[place].weight = weight;
        Ok(())
    }

    /// Ranks the roles by their names, if some was added since they were ranked.
    pub fn rank_all(&mut self, alloc: Global) -> Result<(), AllocError>
        ensures { self.new ≡ self.old }
    {
        if self.ranks.len() < self.sums.len() {
            self.ranks = ranks_of(alloc, self.sums.as_slice(), &self.places)?;
        }
        Ok(())
    }

    /// Whether a role comes before another by their names, where each has its place among these if
    /// it is known. Where both are ranked, their ranks are compared in place of their names.
    pub fn is_before(
        &self,
        first: &RoleName,
        one: Option<usize>,
        second: &RoleName,
        other: Option<usize>,
    ) -> bool
        requires one { one ≡ position (is_role first.now) self.now }
        requires other { other ≡ position (is_role second.now) self.now }
        ensures { result ≡ bytes_before first.now second.now }
    {
        if let Some(rank) = rank_at(&self.ranks, one) {
            if let Some(other_rank) = rank_at(&self.ranks, other) {
                return rank < other_rank;
            }
        }
        first.is_before(second)
    }
}
