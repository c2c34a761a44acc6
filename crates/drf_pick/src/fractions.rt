//! Dominant shares, kept beside those whose they are.

ghost use Rattle.std.specs.Prelude.{◌≡◌, ◌++◌, ◌∷◌, [], take, IfOk, OnOk, OnErr};
ghost use Rattle.drf_shares.specs.Dominant.{nothing};
ghost use Rattle.drf_pick.specs.Fractions.{OfHolders, OfRoles};

use crate::holder::{Holder, RoleSum};
use drf_shares::{Fraction, Sum};
use std::alloc::{AllocError, Global};

/// Keeps so many fractions, and appends that of a holder of nothing.
pub(crate) fn keep_nothing(fractions: &mut Vec<Fraction>, count: usize) -> Result<(), AllocError>
    ensures ok { OnOk result (fractions.new.items
        ≡ take count fractions.old.items ++ nothing ∷ []) }
    ensures err { OnErr result (fractions.new.items ≡ take count fractions.old.items) }
{
    fractions.truncate(count);
    fractions.push(Fraction::nothing())?;
    Ok(())
}

/// The fraction of each framework.
pub(crate) fn of_holders(
    alloc: Global,
    totals: &Sum,
    holders: &[Holder],
) -> Result<Vec<Fraction>, AllocError>
    ensures { IfOk result (λ fractions. OfHolders totals.now holders.now fractions.items) }
{
    let mut fractions = Vec::new(alloc);
    for holder in holders {
        fractions.push(Fraction::dominant(totals, &holder.held))?;
    }
    Ok(fractions)
}

/// The fraction of each role.
pub(crate) fn of_roles(
    alloc: Global,
    totals: &Sum,
    roles: &[RoleSum],
) -> Result<Vec<Fraction>, AllocError>
    ensures { IfOk result (λ fractions. OfRoles totals.now roles.now fractions.items) }
{
    let mut fractions = Vec::new(alloc);
    for role in roles {
        fractions.push(Fraction::dominant(totals, &role.held))?;
    }
    Ok(fractions)
}
