//! What frameworks and roles hold, and what all agents own.

ghost use Rattle.std.specs.Prelude.{◌≡◌, ◌++◌, ◌∷◌, [], ℕ, List, true, false, None, Some, Err, IfOk, IfSome, OnOk, OnErr, is_some};
ghost use Rattle.std.specs.List.{find, position};
ghost use Rattle.std.specs.Option.{option_copied};
ghost use Rattle.quantity.specs.declared.rows.Row.{Row};
ghost use Rattle.quantity.specs.Laws.{SameAmounts};
ghost use Rattle.drf_shares.specs.Sums.{AddUp, CanAdd, IsSum};
ghost use Rattle.drf_pick.specs.Least.{role_share};
ghost use Rattle.names_core.specs.Weights.{IsWeight};
ghost use Rattle.drf_pick.specs.RoleSums.{AreSums};
ghost use Rattle.drf_pick.specs.Shown.{HoldSums};
ghost use Rattle.drf_pick.specs.Shares.{AreUpTo, CanHold, Holder, HoldersOnce, all_held, any_role, at_first, is_behind, is_holder, is_role, given_holders, given_roles, given, holder_of, holder_with, given_to, of_role, role_given, roles_moved_of, weighed, with_totals, roles_with, with_role, holder_has, can_back, returned_holders, returned_roles, returned};

use crate::holder::Holder;
use crate::roles::Roles;
use drf_shares::{SharesFault, Sum};
use names_core::{FrameworkId, RoleName};
use quantity::Resources;
use std::alloc::{AllocError, Global};
use std::marker::Model;
use values::Plain;

/// The sum of what agents own, and the sums of what frameworks and roles hold of it.
/// No dominant share is known while it is counted.
#[derive(Drop)]
pub struct Holdings {
    totals: Sum,
    holders: Vec<Holder>,
    /// The last of the holders' frameworks, by their ids: one after it is none of them.
    last: Option<FrameworkId>,
    roles: Roles,
    /// For each holder the place of its role. It is tried first; no answer depends on it.
    role_places: Vec<usize>,
}

impl Model for Holdings {
    ghost use Rattle.drf_pick.specs.RoleSums.{AreSums};
    ghost use Rattle.drf_pick.specs.Shares.{AreUpTo, Tally, HoldersOnce};

    ghost Value = { Tally };

    ghost view = { λ s. record { totals = s.totals; holders = s.holders.items; roles = s.roles } };

    ghost invariant = { λ s. AreUpTo s.last s.holders.items × HoldersOnce s.holders.items
        × AreSums s.holders.items s.roles };
}

/// The place of a framework's holder. It is found by halving where the holders are in the order of
/// their frameworks' ids.
fn holder_place(holders: &[Holder], framework: FrameworkId) -> Option<usize>
    requires { HoldersOnce holders.now }
    ensures { result ≡ position (is_holder framework) holders.now }
{
    let place = holders.partition_point(|holder| holder.framework < framework);
    if place < holders.len() && holders[place].is_of(framework) {
        return Some(place);
    }
    holders.iter().position(|holder| holder.is_of(framework))
}

/// Whether a framework is after the last one.
fn is_behind(last: Option<FrameworkId>, framework: FrameworkId) -> bool
    ensures { result ≡ is_behind last framework }
{
    match last {
        None => true,
        Some(last) => last < framework,
    }
}

/// The place of a framework's holder. It is found at once where the guess is right.
fn holder_near(holders: &[Holder], guess: usize, framework: FrameworkId) -> Option<usize>
    requires { HoldersOnce holders.now }
    ensures { result ≡ position (is_holder framework) holders.now }
{
    if guess < holders.len() && holders[guess].is_of(framework) {
        return Some(guess);
    }
    holder_place(holders, framework)
}

fn find_holder(holders: &[Holder], guess: usize, framework: FrameworkId) -> Option<&Holder>
    requires { HoldersOnce holders.now }
    ensures { option_copied result ≡ find (is_holder framework) holders.now }
{
    let place = holder_near(holders, guess, framework)?;
    Some(&holders[place])
}

/// Whether one of these holders is the framework's. No holder is after the last one.
fn is_known(holders: &[Holder], last: Option<FrameworkId>, framework: FrameworkId) -> bool
    requires once { HoldersOnce holders.now }
    requires up_to { AreUpTo last holders.now }
    ensures { result ≡ is_some (find (is_holder framework) holders.now) }
{
    if is_behind(last, framework) {
        return false;
    }
    find_holder(holders, holders.len(), framework).is_some()
}

/// The place of a framework's holder. No holder is after the last one.
fn known_place(
    holders: &[Holder],
    last: Option<FrameworkId>,
    framework: FrameworkId,
) -> Option<usize>
    requires once { HoldersOnce holders.now }
    requires up_to { AreUpTo last holders.now }
    ensures { result ≡ position (is_holder framework) holders.now }
{
    if is_behind(last, framework) {
        return None;
    }
    holder_place(holders, framework)
}

/// The last framework once this one is added.
fn later(last: Option<FrameworkId>, framework: FrameworkId) -> FrameworkId
    ensures { (hs : List Holder) (role : List ℕ) (held : List Row) → AreUpTo last hs
        → AreUpTo (Some result) (hs ++ holder_with framework role held ∷ []) }
{
    let Some(last) = last else {
        return framework;
    };
    if last < framework { framework } else { last }
}

/// The likely place of the role of the holder at a place.
fn guess_at(role_places: &[usize], place: usize) -> usize {
    role_places.get(place).copied().unwrap_or(0)
}

fn give_in(
    holders: &mut Vec<Holder>,
    roles: &mut Roles,
    guess: usize,
    alloc: Global,
    place: usize,
    framework: FrameworkId,
    resources: &Resources,
) -> Result<(), AllocError>
    requires at { position (is_holder framework) holders.old.items ≡ Some place }
    requires sums { AreSums holders.old.items roles.old }
    requires room { CanAdd (all_held holders.old.items) resources.now }
    ensures holders { OnOk result (holders.new.items
        ≡ given_holders framework resources.now holders.old.items) }
    ensures roles { OnOk result (roles.new
        ≡ given_roles resources.now (find (is_holder framework) holders.old.items)
        roles.old) }
    ensures same_holders { OnErr result (holders.new.items ≡ holders.old.items) }
    ensures same_roles { OnErr result (roles.new ≡ roles.old) }
{
    if holders[place].held.has_names_of(resources) {
        roles.give(alloc, guess, &holders[place].role, resources)?;
        holders[place].held.add(resources);
        return Ok(());
    }
    let held = holders[place].held.plus(alloc, resources)?;
    roles.give(alloc, guess, &holders[place].role, resources)?;
    holders[place].held = held;
    Ok(())
}

fn back_in(
    holders: &mut Vec<Holder>,
    roles: &mut Roles,
    role_places: &[usize],
    alloc: Global,
    framework: FrameworkId,
    resources: &Resources,
) -> Result<(), SharesFault>
    requires { HoldersOnce holders.old.items }
    ensures holders { OnOk result (holders.new.items
        ≡ returned_holders framework resources.now holders.old.items) }
    ensures roles { OnOk result (roles.new
        ≡ returned_roles resources.now (find (is_holder framework) holders.old.items)
        roles.old) }
    ensures covered { OnOk result
        (holder_has resources.now roles.old (find (is_holder framework) holders.old.items)
        ≡ true) }
    ensures refused { result ≡ Err SharesFault.NotHeld
        → holder_has resources.now roles.old (find (is_holder framework) holders.old.items)
        ≡ false }
    ensures same_holders { OnErr result (holders.new.items ≡ holders.old.items) }
    ensures same_roles { OnErr result (roles.new ≡ roles.old) }
{
    let Some(place) = holder_place(holders, framework) else {
        return Err(SharesFault::NotHeld);
    };
    let guess = guess_at(role_places, place);
    match holders[place].held.minus(alloc, resources) {
        Ok(held) => match roles.back(alloc, guess, &holders[place].role, resources) {
            Ok(()) => {
                holders[place].held = held;
                Ok(())
            }
            Err(fault) => Err(fault),
        },
        Err(fault) => Err(fault),
    }
}

/// The likely place of the role of the last holder.
fn last_place(role_places: &[usize]) -> usize {
    role_places.last().copied().unwrap_or(0)
}

/// There is room for the place of the role of the holder that comes next.
fn make_room(role_places: &mut Vec<usize>, count: usize) -> Result<(), AllocError> {
    if role_places.len() <= count {
        role_places.push(0)?;
    }
    Ok(())
}

fn keep_place(role_places: &mut Vec<usize>, holder: usize, place: usize) {
    if let Some(kept) = role_places.get_mut(holder) {
        *kept = place;
    }
}

fn add_holder(
    holders: &mut Vec<Holder>,
    roles: &mut Roles,
    role_places: &mut Vec<usize>,
    alloc: Global,
    framework: FrameworkId,
    role: &RoleName,
) -> Result<(), AllocError>
    ensures holders { OnOk result (holders.new.items ≡ holders.old.items
        ++ holder_of framework role.now ∷ []) }
    ensures roles { OnOk result (roles.new
        ≡ roles_with role.now roles.old (find (is_role role.now) roles.old)) }
    ensures err { OnErr result ((holders.new.items ≡ holders.old.items)
        × (roles.new ≡ roles.old)) }
{
    let count = holders.len();
    let guess = last_place(role_places);
    make_room(role_places, count)?;
    holders.push(Holder::new(framework, role.copy()?, Sum::new(alloc)))?;
    match roles.add(alloc, guess, role) {
        Ok(place) => {
            keep_place(role_places, count, place);
            Ok(())
        }
        Err(fault) => {
            holders.truncate(count);
            Err(fault)
        }
    }
}

/// A framework is added, with its role and what it holds.
fn add_holding(
    holders: &mut Vec<Holder>,
    roles: &mut Roles,
    role_places: &mut Vec<usize>,
    alloc: Global,
    framework: FrameworkId,
    role: RoleName,
    held: Sum,
) -> Result<(), AllocError>
    requires { CanAdd (role_share roles.old role).held held }
    ensures holders { OnOk result (holders.new.items ≡ holders.old.items
        ++ holder_with framework role held ∷ []) }
    ensures roles { OnOk result (roles.new ≡ role_given role held roles.old) }
    ensures err { OnErr result ((holders.new.items ≡ holders.old.items)
        × (roles.new ≡ roles.old)) }
{
    let count = holders.len();
    let guess = last_place(role_places);
    make_room(role_places, count)?;
    holders.push(Holder::new(framework, role, held))?;
    match roles.raise(alloc, guess, &holders[count].role, &holders[count].held) {
        Ok(place) => {
            keep_place(role_places, count, place);
            Ok(())
        }
        Err(fault) => {
            holders.truncate(count);
            Err(fault)
        }
    }
}

/// What a framework holds moves from its role to another.
fn change_role(
    holders: &mut Vec<Holder>,
    roles: &mut Roles,
    role_places: &mut Vec<usize>,
    alloc: Global,
    framework: FrameworkId,
    role: &RoleName,
) -> Result<(), AllocError>
    requires once { HoldersOnce holders.old.items }
    requires sums { AreSums holders.old.items roles.old }
    ensures holders { OnOk result (holders.new.items
        ≡ at_first (is_holder framework) (of_role role.now) holders.old.items) }
    ensures roles { OnOk result (roles.new
        ≡ roles_moved_of role.now roles.old (find (is_holder framework) holders.old.items)) }
    ensures err { OnErr result ((holders.new.items ≡ holders.old.items)
        × (roles.new ≡ roles.old)) }
{
    let Some(place) = holder_place(holders, framework) else {
        return Ok(());
    };
    if holders[place].role.is(role) {
        return Ok(());
    }
    let name = role.copy()?;
    let guess = guess_at(role_places, place);
    let holder = &holders[place];
    let to = roles.move_held(alloc, guess, &holder.role, role, &holder.held)?;
    holders[place].role = name;
    keep_place(role_places, place, to);
    Ok(())
}

/// What these hold together.
fn sum_of(alloc: Global, holders: &[Holder]) -> Result<Sum, AllocError>
    requires { AddUp (all_held holders.now) }
    ensures { IfOk result (λ sum. SameAmounts sum (all_held holders.now)) }
{
    let mut sum = Sum::new(alloc);
    for holder in holders {
        sum = sum.plus_sum(alloc, &holder.held)?;
    }
    Ok(sum)
}

/// The role of frameworks that name none.
fn any_role(alloc: Global) -> Result<RoleName, AllocError>
    ensures { IfOk result (λ role. role ≡ any_role) }
{
    match RoleName::from_text(alloc, "*") {
        Ok(role) => Ok(role),
        Err(_) => Err(AllocError),
    }
}

/// What a role holds, if it is known, is a sum.
fn is_role_sum(roles: &Roles, guess: usize, role: &RoleName)
    ensures { IfSome (find (is_role role.now) roles.now) (λ r. IsSum r.held) }
{
    if let Some(place) = roles.place(guess, role) {
        let _held = roles.as_slice()[place].held.rows();
    }
}

impl Holdings {
    /// Nothing is owned, and nobody holds anything. It takes no memory.
    pub fn new(alloc: Global) -> Holdings
        ensures { result ≡ record { totals = []; holders = []; roles = [] } }
    {
        Holdings {
            totals: Sum::new(alloc),
            holders: Vec::new(alloc),
            last: None,
            roles: Roles::new(alloc),
            role_places: Vec::new(alloc),
        }
    }

    pub(crate) fn totals(&self) -> &Sum
        ensures { result.now ≡ self.now.totals }
    {
        &self.totals
    }

    pub(crate) fn holders(&self) -> &[Holder]
        ensures { result.now ≡ self.now.holders }
    {
        self.holders.as_slice()
    }

    /// What all frameworks hold.
    pub(crate) fn held_together(&self, alloc: Global) -> Result<Sum, AllocError>
        ensures { IfOk result (λ sum. SameAmounts sum (all_held self.now.holders)) }
    {
        sum_of(alloc, &self.holders)
    }

    /// Ranks the roles by their names, if some was added since they were ranked.
    pub(crate) fn rank_roles(&mut self, alloc: Global) -> Result<(), AllocError>
        ensures { self.new ≡ self.old }
    {
        self.roles.rank_all(alloc)
    }

    pub(crate) fn roles(&self) -> &Roles
        ensures { result.now ≡ self.now.roles }
    {
        &self.roles
    }

    /// The place of a framework's holder. It is found at once where the guess is right.
    pub(crate) fn place(&self, guess: usize, framework: FrameworkId) -> Option<usize>
        ensures { result ≡ position (is_holder framework) self.now.holders }
    {
        holder_near(&self.holders, guess, framework)
    }

    /// The place of a role. It is found at once where it is that of the holder at a place.
    pub(crate) fn role_place(&self, holder: usize, role: &RoleName) -> Option<usize>
        ensures { result ≡ position (is_role role.now) self.now.roles }
    {
        self.roles.place(guess_at(&self.role_places, holder), role)
    }

    /// Whether a framework is registered.
    pub(crate) fn is_registered(&self, framework: FrameworkId) -> bool
        ensures registered { result ≡ is_some (find (is_holder framework) self.now.holders) }
        ensures sums { HoldSums framework self.now }
    {
        let Some(place) = known_place(&self.holders, self.last, framework) else {
            return false;
        };
        let holder = &self.holders[place];
        let _held = holder.held.rows();
        is_role_sum(
            &self.roles,
            guess_at(&self.role_places, place),
            &holder.role,
        );
        true
    }

    /// A role has this weight; one that isn't known is added, and holds nothing. It fails for want
    /// of memory alone, and then changes nothing.
    pub(crate) fn weigh(
        &mut self,
        alloc: Global,
        role: &RoleName,
        weight: u16,
    ) -> Result<(), AllocError>
        requires { IsWeight weight }
        ensures ok { OnOk result (self.new ≡ weighed role.now weight self.old) }
        ensures err { OnErr result (self.new ≡ self.old) }
    {
        self.roles.weigh(alloc, role, weight)
    }

    /// Agents own this together.
    pub(crate) fn own(&mut self, totals: Sum)
        ensures { self.new ≡ with_totals totals self.old }
    {
        self.totals = totals;
    }

    /// Registers a framework with this role. What one that is registered already holds moves from
    /// its role to this one. It fails for want of memory alone, and then changes nothing.
    pub fn role(
        &mut self,
        alloc: Global,
        framework: FrameworkId,
        role: &RoleName,
    ) -> Result<(), AllocError>
        ensures ok { OnOk result (self.new ≡ with_role framework role.now self.old) }
        ensures err { OnErr result (self.new ≡ self.old) }
    {
        if is_known(&self.holders, self.last, framework) {
            let _sums = self.is_registered(framework);
            return change_role(
                &mut self.holders,
                &mut self.roles,
                &mut self.role_places,
                alloc,
                framework,
                role,
            );
        }
        add_holder(
            &mut self.holders,
            &mut self.roles,
            &mut self.role_places,
            alloc,
            framework,
            role,
        )?;
        self.last = Some(later(self.last, framework));
        Ok(())
    }

    /// A framework that isn't registered is, with the role `*`, and holds this.
    fn give_first(
        &mut self,
        alloc: Global,
        framework: FrameworkId,
        resources: &Resources,
    ) -> Result<(), AllocError>
        requires new { find (is_holder framework) self.old.holders ≡ None }
        requires room { CanHold resources.now self.old }
        ensures ok { OnOk result (self.new ≡ given_to framework resources.now self.old None) }
        ensures err { OnErr result (self.new ≡ self.old) }
    {
        let role = any_role(alloc)?;
        let held = Sum::new(alloc).plus(alloc, resources)?;
        add_holding(
            &mut self.holders,
            &mut self.roles,
            &mut self.role_places,
            alloc,
            framework,
            role,
            held,
        )?;
        self.last = Some(later(self.last, framework));
        Ok(())
    }

    /// A framework holds more, and so does its role; one that isn't registered is of the role `*`
    /// then. It takes no memory where both hold some of each name. It fails for want of memory
    /// alone, and then changes nothing.
    pub fn give(
        &mut self,
        alloc: Global,
        framework: FrameworkId,
        resources: &Resources,
    ) -> Result<(), AllocError>
        requires { CanHold resources.now self.old }
        ensures ok { OnOk result (self.new ≡ given framework resources.now self.old) }
        ensures err { OnErr result (self.new ≡ self.old) }
    {
        let Some(place) = known_place(&self.holders, self.last, framework) else {
            return self.give_first(alloc, framework, resources);
        };
        give_in(
            &mut self.holders,
            &mut self.roles,
            guess_at(&self.role_places, place),
            alloc,
            place,
            framework,
            resources,
        )
    }

    /// A framework and its role hold less. `P1 NotHeld` where the framework isn't registered, or
    /// where it or its role holds less of some name; a refusal changes nothing.
    pub(crate) fn back(
        &mut self,
        alloc: Global,
        framework: FrameworkId,
        resources: &Resources,
    ) -> Result<(), SharesFault>
        ensures ok { OnOk result (self.new ≡ returned framework resources.now self.old) }
        ensures covered { OnOk result (can_back framework resources.now self.old ≡ true) }
        ensures refused { result ≡ Err SharesFault.NotHeld
            → can_back framework resources.now self.old ≡ false }
        ensures err { OnErr result (self.new ≡ self.old) }
    {
        if !self.is_registered(framework) {
            return Err(SharesFault::NotHeld);
        }
        back_in(
            &mut self.holders,
            &mut self.roles,
            &self.role_places,
            alloc,
            framework,
            resources,
        )
    }
}
