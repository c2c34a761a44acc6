//! Dominant shares of what frameworks and roles hold.

ghost use Rattle.std.specs.Prelude.{◌≡◌, ◌≤◌, ◌↔◌, [], None, true, false, length, Err, IfOk, OnOk, OnErr, IfErr, is_some};
ghost use Rattle.std.specs.List.{find};
ghost use Rattle.drf_pick.specs.Fractions.{OfHolders, OfOthers, OfOtherRoles, OfRoles, OfRolesBut};
ghost use Rattle.drf_pick.specs.Shown.{HoldSums};
ghost use Rattle.drf_pick.specs.Shares.{AreWeighed, CanHold, CanOwn, RolesOnce, is_holder, entered, given, with_totals, with_role, can_leave, departed, can_back, returned, weighed};
ghost use Rattle.names_core.specs.Weights.{IsWeight};

use crate::fractions::{keep_nothing, of_holders, of_roles};
use crate::holder::RoleSum;
use crate::holdings::Holdings;
use drf_shares::{Fraction, SharesFault, Sum};
use names_core::{FrameworkId, RoleName};
use quantity::Resources;
use std::alloc::{AllocError, Global};
use std::marker::Model;

/// The sum of what agents own, and the sums of what frameworks and roles hold of it,
/// with their dominant shares.
#[derive(Drop)]
pub struct Shares {
    pub(crate) holdings: Holdings,
    /// For each holder, at its place, its dominant share; there may be more after them.
    pub(crate) fractions: Vec<Fraction>,
    /// The same for each role.
    pub(crate) role_fractions: Vec<Fraction>,
}

impl Model for Shares {
    ghost use Rattle.drf_pick.specs.Fractions.{OfHolders, OfRoles};
    ghost use Rattle.drf_pick.specs.Shares.{Tally};

    ghost Value = { Tally };

    ghost view = { λ s. s.holdings };

    ghost invariant = { λ s. OfHolders s.holdings.totals s.holdings.holders s.fractions.items
        × OfRoles s.holdings.totals s.holdings.roles s.role_fractions.items };
}

/// A role's fraction is made anew. It is likely to be that of the holder at a place.
fn renew_role(fractions: &mut Vec<Fraction>, holdings: &Holdings, holder: usize, role: &RoleName)
    requires { OfOtherRoles role.now holdings.now.totals holdings.now.roles fractions.old.items }
    ensures { OfRoles holdings.now.totals holdings.now.roles fractions.new.items }
{
    let Some(place) = holdings.role_place(holder, role) else {
        return;
    };
    let sums = holdings.roles().as_slice();
    fractions[place] = Fraction::dominant(holdings.totals(), &sums[place].held);
}

/// A framework's fraction and its role's are made anew.
fn renew_of(
    fractions: &mut Vec<Fraction>,
    role_fractions: &mut Vec<Fraction>,
    holdings: &Holdings,
    framework: FrameworkId,
)
    requires holders { OfOthers framework holdings.now.totals holdings.now.holders
        fractions.old.items }
    requires roles { OfRolesBut (find (is_holder framework) holdings.now.holders)
        holdings.now.totals holdings.now.roles role_fractions.old.items }
    ensures holders { OfHolders holdings.now.totals holdings.now.holders fractions.new.items }
    ensures roles { OfRoles holdings.now.totals holdings.now.roles role_fractions.new.items }
{
    let holders = holdings.holders();
    let Some(place) = holdings.place(holders.len(), framework) else {
        return;
    };
    let holder = &holders[place];
    fractions[place] = Fraction::dominant(holdings.totals(), &holder.held);
    renew_role(role_fractions, holdings, place, &holder.role);
}

/// Each role's fraction is made anew.
fn renew_roles(fractions: &mut Vec<Fraction>, holdings: &Holdings)
    requires { length holdings.now.roles ≤ length fractions.old.items }
    ensures { OfRoles holdings.now.totals holdings.now.roles fractions.new.items }
{
    let sums = holdings.roles().as_slice();
    for place in 0..sums.len() {
        fractions[place] = Fraction::dominant(holdings.totals(), &sums[place].held);
    }
}

impl Shares {
    /// Nothing is owned, and nobody holds anything. It takes no memory.
    pub fn new(alloc: Global) -> Shares
        ensures { result ≡ record { totals = []; holders = []; roles = [] } }
    {
        Shares {
            holdings: Holdings::new(alloc),
            fractions: Vec::new(alloc),
            role_fractions: Vec::new(alloc),
        }
    }

    /// Agents own this together. Each dominant share is made anew. A refusal changes nothing.
    fn renew(&mut self, alloc: Global, totals: Sum) -> Result<(), AllocError>
        ensures ok { OnOk result (self.new ≡ with_totals totals self.old) }
        ensures err { OnErr result (self.new ≡ self.old) }
    {
        let fractions = of_holders(alloc, &totals, self.holdings.holders())?;
        let roles = self.holdings.roles().as_slice();
        self.role_fractions = of_roles(alloc, &totals, roles)?;
        self.fractions = fractions;
        self.holdings.own(totals);
        Ok(())
    }

    /// What agents own together.
    pub fn totals(&self) -> &Sum
        ensures { result.now ≡ self.now.totals }
    {
        self.holdings.totals()
    }

    /// Roles are ranked by their names, if some was added since they were; until then a comparison
    /// of two that stand alike reads both names. No answer depends on it.
    pub fn rank_roles(&mut self, alloc: Global) -> Result<(), AllocError>
        ensures { self.new ≡ self.old }
    {
        self.holdings.rank_roles(alloc)
    }

    /// The roles that are known, with what their frameworks hold and their weights.
    pub fn roles(&self) -> &[RoleSum]
        ensures roles { result.now ≡ self.now.roles }
        ensures once { RolesOnce self.now.roles }
        ensures weighed { AreWeighed self.now.roles }
    {
        self.holdings.roles().as_slice()
    }

    /// Whether a framework is registered.
    pub fn is_registered(&self, framework: FrameworkId) -> bool
        ensures registered { result ≡ is_some (find (is_holder framework) self.now.holders) }
        ensures sums { HoldSums framework self.now }
    {
        self.holdings.is_registered(framework)
    }

    /// A role has this weight from now on, 1 to 1,000. It is kept for a role that no framework has
    /// yet. `P2 OutOfMemory` changes nothing.
    pub fn weigh(&mut self, alloc: Global, role: &RoleName, weight: u16) -> Result<(), SharesFault>
        requires { IsWeight weight }
        ensures ok { OnOk result (self.new ≡ weighed role.now weight self.old) }
        ensures err { OnErr result (self.new ≡ self.old) }
        ensures memory { IfErr result (λ fault. fault ≡ SharesFault.OutOfMemory) }
    {
        keep_nothing(&mut self.role_fractions, self.holdings.roles().len())?;
        self.holdings.weigh(alloc, role, weight)?;
        Ok(())
    }

    /// An agent owns this. `P2 OutOfMemory` changes nothing.
    pub fn enter(&mut self, alloc: Global, total: &Resources) -> Result<(), SharesFault>
        requires { CanOwn total.now self.old }
        ensures ok { OnOk result (self.new ≡ entered total.now self.old) }
        ensures err { OnErr result (self.new ≡ self.old) }
        ensures memory { IfErr result (λ fault. fault ≡ SharesFault.OutOfMemory) }
    {
        let totals = self.holdings.totals().plus(alloc, total)?;
        self.renew(alloc, totals)?;
        Ok(())
    }

    /// Registers a framework that isn't registered.
    fn add(
        &mut self,
        alloc: Global,
        framework: FrameworkId,
        role: &RoleName,
    ) -> Result<(), SharesFault>
        requires { find (is_holder framework) self.old.holders ≡ None }
        ensures ok { OnOk result (self.new ≡ with_role framework role.now self.old) }
        ensures err { OnErr result (self.new ≡ self.old) }
        ensures memory { IfErr result (λ fault. fault ≡ SharesFault.OutOfMemory) }
    {
        keep_nothing(&mut self.fractions, self.holdings.holders().len())?;
        keep_nothing(&mut self.role_fractions, self.holdings.roles().len())?;
        self.holdings.role(alloc, framework, role)?;
        Ok(())
    }

    /// A framework that is registered has another role, if it hasn't this one.
    fn change(
        &mut self,
        alloc: Global,
        framework: FrameworkId,
        role: &RoleName,
    ) -> Result<(), SharesFault>
        requires { is_some (find (is_holder framework) self.old.holders) ≡ true }
        ensures ok { OnOk result (self.new ≡ with_role framework role.now self.old) }
        ensures err { OnErr result (self.new ≡ self.old) }
        ensures memory { IfErr result (λ fault. fault ≡ SharesFault.OutOfMemory) }
    {
        keep_nothing(&mut self.role_fractions, self.holdings.roles().len())?;
        self.holdings.role(alloc, framework, role)?;
        renew_roles(&mut self.role_fractions, &self.holdings);
        Ok(())
    }

    /// A framework has this role from now on. What it holds moves from the role that it had, if it
    /// had one. `P2 OutOfMemory` changes nothing.
    pub fn role(
        &mut self,
        alloc: Global,
        framework: FrameworkId,
        role: &RoleName,
    ) -> Result<(), SharesFault>
        ensures ok { OnOk result (self.new ≡ with_role framework role.now self.old) }
        ensures err { OnErr result (self.new ≡ self.old) }
        ensures memory { IfErr result (λ fault. fault ≡ SharesFault.OutOfMemory) }
    {
        if self.is_registered(framework) {
            self.change(alloc, framework, role)
        } else {
            self.add(alloc, framework, role)
        }
    }

    /// A framework that isn't registered is, with the role `*`, and holds this.
    fn give_first(
        &mut self,
        alloc: Global,
        framework: FrameworkId,
        resources: &Resources,
    ) -> Result<(), SharesFault>
        requires new { find (is_holder framework) self.old.holders ≡ None }
        requires room { CanHold resources.now self.old }
        ensures ok { OnOk result (self.new ≡ given framework resources.now self.old) }
        ensures err { OnErr result (self.new ≡ self.old) }
        ensures memory { IfErr result (λ fault. fault ≡ SharesFault.OutOfMemory) }
    {
        keep_nothing(&mut self.fractions, self.holdings.holders().len())?;
        keep_nothing(&mut self.role_fractions, self.holdings.roles().len())?;
        self.holdings.give(alloc, framework, resources)?;
        renew_of(
            &mut self.fractions,
            &mut self.role_fractions,
            &self.holdings,
            framework,
        );
        Ok(())
    }

    /// A framework that is registered holds more.
    fn give_more(
        &mut self,
        alloc: Global,
        framework: FrameworkId,
        resources: &Resources,
    ) -> Result<(), SharesFault>
        requires known { is_some (find (is_holder framework) self.old.holders) ≡ true }
        requires room { CanHold resources.now self.old }
        ensures ok { OnOk result (self.new ≡ given framework resources.now self.old) }
        ensures err { OnErr result (self.new ≡ self.old) }
        ensures memory { IfErr result (λ fault. fault ≡ SharesFault.OutOfMemory) }
    {
        self.holdings.give(alloc, framework, resources)?;
        renew_of(
            &mut self.fractions,
            &mut self.role_fractions,
            &self.holdings,
            framework,
        );
        Ok(())
    }

    /// Whether frameworks can hold more: of no name do they hold more than 2^48 together then.
    pub fn can_hold(&self, alloc: Global, more: &Resources) -> Result<bool, AllocError>
        ensures { IfOk result (λ can. (can ≡ true) ↔ CanHold more.now self.now) }
    {
        let held = self.holdings.held_together(alloc)?;
        Ok(held.can_add(more))
    }

    /// A framework holds more, and so does its role. One that has no role yet counts as of the role
    /// `*`. `P2 OutOfMemory` changes nothing.
    pub fn give(
        &mut self,
        alloc: Global,
        framework: FrameworkId,
        resources: &Resources,
    ) -> Result<(), SharesFault>
        requires { CanHold resources.now self.old }
        ensures ok { OnOk result (self.new ≡ given framework resources.now self.old) }
        ensures err { OnErr result (self.new ≡ self.old) }
        ensures memory { IfErr result (λ fault. fault ≡ SharesFault.OutOfMemory) }
    {
        if self.is_registered(framework) {
            self.give_more(alloc, framework, resources)
        } else {
            self.give_first(alloc, framework, resources)
        }
    }

    /// An agent no longer owns this. `P1 NotHeld` where all agents own less of some name;
    /// a refusal changes nothing.
    pub fn leave(&mut self, alloc: Global, total: &Resources) -> Result<(), SharesFault>
        ensures ok { OnOk result (self.new ≡ departed total.now self.old) }
        ensures covered { OnOk result (can_leave total.now self.old ≡ true) }
        ensures refused { result ≡ Err SharesFault.NotHeld → can_leave total.now self.old ≡ false }
        ensures err { OnErr result (self.new ≡ self.old) }
    {
        match self.holdings.totals().minus(alloc, total) {
            Ok(rest) => {
                self.renew(alloc, rest)?;
                Ok(())
            }
            Err(fault) => Err(fault),
        }
    }

    /// A framework and its role hold less. `P1 NotHeld` where the framework isn't registered, or
    /// where it or its role holds less of some name; a refusal changes nothing.
    pub fn back(
        &mut self,
        alloc: Global,
        framework: FrameworkId,
        resources: &Resources,
    ) -> Result<(), SharesFault>
        ensures ok { OnOk result (self.new ≡ returned framework resources.now self.old) }
        ensures covered { OnOk result (can_back framework resources.now self.old ≡ true) }
        ensures refused { result ≡ Err SharesFault.NotHeld
            → can_back framework resources.now self.old ≡ false }
        ensures err { OnErr result (self.new ≡ self.old) }
    {
        match self.holdings.back(alloc, framework, resources) {
            Ok(()) => {
                renew_of(
                    &mut self.fractions,
                    &mut self.role_fractions,
                    &self.holdings,
                    framework,
                );
                Ok(())
            }
            Err(fault) => Err(fault),
        }
    }
}
