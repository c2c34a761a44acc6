//! The dominant shares of a framework and its role.

ghost use Rattle.std.specs.Prelude.{◌≡◌, ◌<◌, ℕ, List, length, nat_eq, IfSome};
ghost use Rattle.names_core.specs.Ids.{Numbered};
ghost use Rattle.drf_shares.specs.Dominant.{IsDominant};
ghost use Rattle.drf_pick.specs.Least.{held_by};
ghost use Rattle.drf_pick.specs.ClientShares.{IsPlaceOf, IsRoleShare, IsClientShare, no_share};

use crate::shares::Shares;
use drf_shares::Fraction;
use names_core::{FrameworkId, RoleName};

/// A role's dominant share.
#[derive(Clone, Copy, Drop)]
pub struct RoleShare {
    /// The role's place, where it is known.
    pub(crate) place: Option<usize>,
    pub(crate) fraction: Fraction,
    pub(crate) weight: u16,
}

/// The places of a framework and its role in shares. They stay when the framework holds more.
#[derive(Clone, Copy, Drop)]
pub struct ClientPlace {
    pub(crate) holder: usize,
    pub(crate) role: usize,
}

/// The dominant shares of a framework and of its role.
#[derive(Clone, Copy, Drop)]
pub struct ClientShare {
    pub(crate) own: Fraction,
    pub(crate) role: RoleShare,
}

/// A framework's fraction; nothing where it isn't registered. `guess` is its likely place.
fn fraction_of(shares: &Shares, guess: usize, framework: FrameworkId) -> Fraction
    ensures { IsDominant shares.now.totals (held_by shares.now framework) result }
{
    match shares.holdings.place(guess, framework) {
        Some(place) => shares.fractions[place],
        None => Fraction::nothing(),
    }
}

/// A role's share; nothing and the weight 1 where it isn't known.
/// It is likely to be that of the holder at this place.
fn role_share_of(shares: &Shares, holder: usize, role: &RoleName) -> RoleShare
    ensures { IsRoleShare shares.now role.now result }
{
    let sums = shares.holdings.roles().as_slice();
    match shares.holdings.role_place(holder, role) {
        Some(place) => RoleShare {
            place: Some(place),
            fraction: shares.role_fractions[place],
            weight: sums[place].weight,
        },
        None => RoleShare {
            place: None,
            fraction: Fraction::nothing(),
            weight: 1,
        },
    }
}

impl ClientPlace {
    /// The places of a framework and its role, where both are known. `guess` is the likely place of
    /// the framework. It takes no memory.
    pub fn of(
        shares: &Shares,
        framework: FrameworkId,
        role: &RoleName,
        guess: usize,
    ) -> Option<ClientPlace>
        ensures { IfSome result (IsPlaceOf shares.now framework role.now) }
    {
        let holder = shares.holdings.place(guess, framework)?;
        let role = shares.holdings.role_place(holder, role)?;
        Some(ClientPlace { holder, role })
    }
}

impl ClientShare {
    /// Of one that holds nothing, of a role that isn't known.
    pub fn nothing() -> ClientShare
        ensures { result ≡ no_share }
    {
        ClientShare {
            own: Fraction::nothing(),
            role: RoleShare {
                place: None,
                fraction: Fraction::nothing(),
                weight: 1,
            },
        }
    }

    /// Whether the framework holds nothing of what agents own.
    pub fn is_nothing(&self) -> bool
        ensures { result ≡ nat_eq self.now.own.amount 0 }
    {
        self.own.is_nothing()
    }

    /// The shares of a framework and of its role. `place` is the likely place of the framework,
    /// from 0, among those that are registered, in order of registration; the search is shorter
    /// where it is right, and no answer depends on it. It takes no memory.
    pub fn of(shares: &Shares, framework: FrameworkId, role: &RoleName, place: usize) -> ClientShare
        ensures { IsClientShare shares.now framework role.now result }
    {
        ClientShare {
            own: fraction_of(shares, place, framework),
            role: role_share_of(shares, place, role),
        }
    }

    /// The shares of the framework and the role at these places. It takes no memory.
    pub fn at(shares: &Shares, place: ClientPlace) -> ClientShare
        requires holder { place.holder < length shares.now.holders }
        requires role { place.role < length shares.now.roles }
        ensures { (framework : Numbered) (role : List ℕ)
            → IsPlaceOf shares.now framework role place
            → IsClientShare shares.now framework role result }
    {
        let sums = shares.holdings.roles().as_slice();
        ClientShare {
            own: shares.fractions[place.holder],
            role: RoleShare {
                place: Some(place.role),
                fraction: shares.role_fractions[place.role],
                weight: sums[place.role].weight,
            },
        }
    }
}
