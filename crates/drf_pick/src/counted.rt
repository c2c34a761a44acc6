//! Shares that are kept, with what is counted in them of each agent: where an agent's offers and
//! tasks are others than before, what was counted of it is taken back.

ghost use Rattle.std.specs.Prelude.{◌≡◌, ◌<◌, [], true, false, fold, length, set, IfErr, IfOk, OnErr, OnOk, ◌++◌, ◌∷◌, List};
ghost use Rattle.std.specs.List.{list_any};
ghost use Rattle.drf_pick.specs.Allocations.{AddUp, Allocation as ModelAllocation, Client as ModelClient, all_rows, allocated};
ghost use Rattle.drf_pick.specs.Shares.{CanHold, held_more};
ghost use Rattle.drf_pick.specs.Shown.{AllCounted, AreCounted, ClientsOnce, IsCounted, HasNone, MemoryRefused, Moves, NoneOf, SameFound, StayCounted, TakesBack, TallyShows, all_found, counted_in, counted_of, due_in, is_for, uncounted};

use crate::shares::Shares;
use drf_shares::SharesFault;
use names_core::{FrameworkId, RoleName};
use quantity::Resources;
use std::alloc::{AllocError, Global};

/// Resources that a framework is allocated on an agent.
#[derive(Drop)]
pub struct Allocation {
    pub framework: FrameworkId,
    pub resources: Resources,
}

/// What frameworks were allocated on an agent when it was last looked at.
#[derive(Drop)]
pub struct Found {
    pub allocations: Vec<Allocation>,
    /// Whether the shares have them.
    pub is_counted: bool,
}

/// Shares, and what they were made of: for each agent, by its place, what was found on it, and what
/// it owns.
#[derive(Drop)]
pub struct CountedShares {
    pub shares: Shares,
    pub found: Vec<Found>,
    /// None of an agent that hasn't entered, or has left.
    pub owned: Vec<Option<Resources>>,
}

impl Shares {
    /// A framework is allocated these resources. Nothing changes where it isn't registered.
    /// `P2 OutOfMemory` changes nothing.
    pub fn allocate(
        &mut self,
        alloc: Global,
        framework: FrameworkId,
        resources: &Resources,
    ) -> Result<(), SharesFault>
        requires { CanHold resources.now self.old }
        ensures ok { OnOk result (self.new ≡ held_more framework resources.now self.old) }
        ensures err { OnErr result (self.new ≡ self.old) }
        ensures memory { IfErr result (λ fault. fault ≡ SharesFault.OutOfMemory) }
    {
        if self.is_registered(framework) {
            self.give(alloc, framework, resources)
        } else {
            Ok(())
        }
    }

    /// A framework is no longer allocated these resources. Nothing changes where it isn't
    /// registered. `P1 NotHeld` where it is and it or its role holds less, which isn't so where the
    /// shares show this allocation; a refusal changes nothing.
    pub fn take_back(
        &mut self,
        alloc: Global,
        framework: FrameworkId,
        resources: &Resources,
    ) -> Result<(), SharesFault>
        ensures ok { OnOk result (TakesBack framework resources.now self.old self.new) }
        ensures totals { self.new.totals ≡ self.old.totals }
        ensures err { OnErr result (self.new ≡ self.old) }
        ensures memory { IfErr result (λ fault. (more : List ModelAllocation) → MemoryRefused
            (record { framework = framework; resources = resources.now } ∷ more)
            self.old fault) }
    {
        if self.is_registered(framework) {
            self.back(alloc, framework, resources)
        } else {
            Ok(())
        }
    }
}

/// Takes back what was counted. `P1 NotHeld` where the shares don't have all of it. A refusal leaves
/// some of it taken back.
fn take_back_all(
    shares: &mut Shares,
    alloc: Global,
    allocations: &[Allocation],
) -> Result<(), SharesFault>
    ensures ok { OnOk result ((cs : List ModelClient) (rest : List ModelAllocation) → ClientsOnce cs
        → TallyShows (rest ++ allocations.now) cs shares.old → TallyShows rest cs shares.new) }
    ensures totals { shares.new.totals ≡ shares.old.totals }
    ensures memory { IfErr result (MemoryRefused allocations.now shares.old) }
{
    for allocation in allocations {
        shares.take_back(alloc, allocation.framework, &allocation.resources)?;
    }
    Ok(())
}

fn give_all(
    shares: &mut Shares,
    alloc: Global,
    allocations: &[Allocation],
) -> Result<(), AllocError>
    requires { CanHold (all_rows allocations.now) shares.old }
    ensures { OnOk result (shares.new ≡ fold allocated shares.old allocations.now) }
{
    for allocation in allocations {
        match shares.allocate(alloc, allocation.framework, &allocation.resources) {
            Ok(()) => {}
            Err(_) => return Err(AllocError),
        }
    }
    Ok(())
}

/// Nothing of what was found on an agent is counted any more.
fn take_back_of(found: &mut Found, shares: &mut Shares, alloc: Global) -> Result<(), SharesFault>
    ensures found { OnOk result (found.new ≡ uncounted found.old) }
    ensures moves { OnOk result (Moves found.old found.new shares.old shares.new) }
    ensures totals { shares.new.totals ≡ shares.old.totals }
    ensures memory { IfErr result (MemoryRefused (counted_in found.old) shares.old) }
{
    if found.is_counted {
        take_back_all(shares, alloc, &found.allocations)?;
    }
    found.is_counted = false;
    Ok(())
}

/// Other allocations are found on an agent.
fn replace_in(
    found: &mut Found,
    shares: &mut Shares,
    alloc: Global,
    allocations: Vec<Allocation>,
) -> Result<(), SharesFault>
    ensures found { OnOk result
        (found.new ≡ record { allocations = allocations; is_counted = false }) }
    ensures moves { OnOk result (Moves found.old found.new shares.old shares.new) }
    ensures totals { shares.new.totals ≡ shares.old.totals }
    ensures memory { IfErr result (MemoryRefused (counted_in found.old) shares.old) }
{
    take_back_of(found, shares, alloc)?;
    *found = Found {
        allocations,
        is_counted: false,
    };
    Ok(())
}

fn any_for(allocations: &[Allocation], framework: FrameworkId) -> bool
    ensures { result ≡ list_any (is_for framework) allocations.now }
{
    allocations
        .iter()
        .any(|allocation| allocation.framework == framework)
}

/// Nothing is counted any more where some of it is a framework's.
fn take_back_for(
    found: &mut Found,
    shares: &mut Shares,
    alloc: Global,
    framework: FrameworkId,
) -> Result<(), SharesFault>
    ensures allocations { OnOk result (found.new.allocations ≡ found.old.allocations) }
    ensures none { OnOk result (HasNone framework (counted_in found.new)) }
    ensures moves { OnOk result (Moves found.old found.new shares.old shares.new) }
    ensures totals { shares.new.totals ≡ shares.old.totals }
    ensures memory { IfErr result (MemoryRefused (counted_in found.old) shares.old) }
{
    if any_for(&found.allocations, framework) {
        take_back_of(found, shares, alloc)?;
    }
    Ok(())
}

/// All that was found on an agent is counted.
fn count_of(found: &mut Found, shares: &mut Shares, alloc: Global) -> Result<(), AllocError>
    requires { CanHold (all_rows (due_in found.old)) shares.old }
    ensures found { OnOk result
        (found.new ≡ record { allocations = found.old.allocations; is_counted = true }) }
    ensures shares { OnOk result (shares.new ≡ fold allocated shares.old (due_in found.old)) }
{
    if !found.is_counted {
        give_all(shares, alloc, &found.allocations)?;
    }
    found.is_counted = true;
    Ok(())
}

impl CountedShares {
    /// Nothing is owned, nobody holds anything, and nothing was found on so many agents, none of
    /// which has entered.
    pub fn new(alloc: Global, agents: usize) -> Result<CountedShares, AllocError>
        ensures counted { IfOk result (AreCounted []) }
        ensures found { IfOk result (λ counted. length counted.found.items ≡ agents) }
        ensures owned { IfOk result (λ counted. length counted.owned.items ≡ agents) }
    {
        let mut found = Vec::new(alloc);
        let mut owned = Vec::new(alloc);
        for _ in 0..agents {
            found.push(Found {
                allocations: Vec::new(alloc),
                is_counted: true,
            })?;
            owned.push(None)?;
        }
        let shares = Shares::new(alloc);
        Ok(CountedShares {
            shares,
            found,
            owned,
        })
    }

    /// These allocations are found on the agent at a place; what was counted of it is taken back.
    /// `P2 OutOfMemory` leaves some of it counted, so that the shares no longer show what was found:
    /// whoever is refused drops them. `P1 NotHeld` where they didn't show it before.
    pub fn find(
        &mut self,
        alloc: Global,
        place: usize,
        allocations: Vec<Allocation>,
    ) -> Result<(), SharesFault>
        requires { place < length self.old.found.items }
        ensures found { OnOk result (self.new.found.items ≡ set self.old.found.items place
            (record { allocations = allocations; is_counted = false })) }
        ensures counted { OnOk result (StayCounted self.old self.new) }
        ensures owned { self.new.owned ≡ self.old.owned }
        ensures memory { IfErr result (λ fault. (cs : List ModelClient)
            → AreCounted cs self.old → fault ≡ SharesFault.OutOfMemory) }
    {
        replace_in(&mut self.found[place], &mut self.shares, alloc, allocations)
    }

    /// Nothing of a framework is counted on any agent. A refusal leaves some of it counted.
    fn take_back_framework(
        &mut self,
        alloc: Global,
        framework: FrameworkId,
    ) -> Result<(), SharesFault>
        ensures found { OnOk result (SameFound self.old.found.items self.new.found.items) }
        ensures none { OnOk result (HasNone framework (counted_of self.new.found.items)) }
        ensures counted { OnOk result (StayCounted self.old self.new) }
        ensures owned { self.new.owned ≡ self.old.owned }
        ensures memory { IfErr result (λ fault. (cs : List ModelClient)
            → AreCounted cs self.old → fault ≡ SharesFault.OutOfMemory) }
    {
        for place in 0..self.found.len() {
            take_back_for(&mut self.found[place], &mut self.shares, alloc, framework)?;
        }
        Ok(())
    }

    /// Registers a framework that isn't registered with its role. What was found of it on agents is
    /// counted by `count`. `P2 OutOfMemory` leaves some of what was counted taken back, so that the
    /// shares no longer show what was found: whoever is refused drops them. `P1 NotHeld` where they
    /// didn't show it before.
    pub fn register(
        &mut self,
        alloc: Global,
        framework: FrameworkId,
        role: &RoleName,
    ) -> Result<(), SharesFault>
        ensures found { OnOk result (SameFound self.old.found.items self.new.found.items) }
        ensures counted { OnOk result ((cs : List ModelClient) → NoneOf framework cs
            → AreCounted cs self.old
            → AreCounted (cs ++ record { framework = framework; role = role.now } ∷ []) self.new) }
        ensures owned { self.new.owned ≡ self.old.owned }
        ensures memory { IfErr result (λ fault. (cs : List ModelClient)
            → AreCounted cs self.old → fault ≡ SharesFault.OutOfMemory) }
    {
        self.take_back_framework(alloc, framework)?;
        self.shares.role(alloc, framework, role)
    }

    /// All that was found is counted. Want of memory leaves some of it counted that isn't marked so:
    /// whoever is refused drops the shares.
    pub fn count(&mut self, alloc: Global) -> Result<(), AllocError>
        requires shown { IsCounted self.old }
        requires sums { AddUp (all_rows (all_found self.old.found.items)) }
        ensures found { OnOk result (SameFound self.old.found.items self.new.found.items) }
        ensures all { OnOk result (AllCounted self.new.found.items) }
        ensures counted { OnOk result (StayCounted self.old self.new) }
        ensures owned { self.new.owned ≡ self.old.owned }
    {
        for place in 0..self.found.len() {
            count_of(&mut self.found[place], &mut self.shares, alloc)?;
        }
        Ok(())
    }
}
