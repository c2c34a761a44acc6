//! The framework that stands least.

ghost use Rattle.std.specs.Prelude.{◌≡◌, None, fold, IfSome, bytes_eq};
ghost use Rattle.std.specs.List.{position};
ghost use Rattle.std.specs.Option.{option_copied};
ghost use Rattle.drf_shares.specs.Dominant.{IsDominant};
ghost use Rattle.drf_pick.specs.Laws.{ArePositive};
ghost use Rattle.drf_pick.specs.Shares.{AreWeighed, is_role};
ghost use Rattle.drf_pick.specs.Least.{IsPick, better_client, comes_before, comes_by_role, comes_within_role, held_by, holder_for};
ghost use Rattle.drf_pick.specs.ClientShares.{IsRoleShare, IsClientShare};

use crate::client_share::{ClientShare, RoleShare};
use crate::holder::Client;
use crate::shares::Shares;
use drf_shares::Fraction;
use names_core::{FrameworkId, RoleName};

/// Whether the first framework is served rather than the second, which is of the same role.
fn comes_within_role(
    shares: &Shares,
    first: FrameworkId,
    one: Fraction,
    second: FrameworkId,
    other: Fraction,
) -> bool
    requires one { IsDominant shares.now.totals (held_by shares.now first) one }
    requires other { IsDominant shares.now.totals (held_by shares.now second) other }
    ensures { result ≡ comes_within_role shares.now first second }
{
    let _ordered = shares.holdings.totals().rows();
    one.is_at_most(1, other, 1) && (!other.is_at_most(1, one, 1) || first < second)
}

/// Whether the frameworks of the first role are served rather than those of the second,
/// which is another.
fn comes_by_role(
    shares: &Shares,
    first: &RoleName,
    one: RoleShare,
    second: &RoleName,
    other: RoleShare,
) -> bool
    requires one { IsRoleShare shares.now first.now one }
    requires other { IsRoleShare shares.now second.now other }
    ensures { result ≡ comes_by_role shares.now first.now second.now }
{
    let _ordered = shares.holdings.totals().rows();
    one.fraction
        .is_at_most(one.weight, other.fraction, other.weight)
        && (!other
            .fraction
            .is_at_most(other.weight, one.fraction, one.weight)
            || shares
                .holdings
                .roles()
                .is_before(first, one.place, second, other.place))
}

/// Whether two roles are one, where each has its place among these if it is known.
fn is_same_role(
    shares: &Shares,
    first: &RoleName,
    one: Option<usize>,
    second: &RoleName,
    other: Option<usize>,
) -> bool
    requires one { one ≡ position (is_role first.now) shares.now.roles }
    requires other { other ≡ position (is_role second.now) shares.now.roles }
    ensures { result ≡ bytes_eq first.now second.now }
{
    if let Some(place) = one {
        if let Some(other_place) = other {
            return place == other_place;
        }
    }
    first.is(second)
}

/// Whether the first framework is served rather than the second, each of its role: by their roles,
/// and within a role by themselves. `one` and `other` are their shares. It takes no memory.
pub fn comes_before(
    shares: &Shares,
    first: FrameworkId,
    first_role: &RoleName,
    one: &ClientShare,
    second: FrameworkId,
    second_role: &RoleName,
    other: &ClientShare,
) -> bool
    requires one { IsClientShare shares.now first first_role.now one.now }
    requires other { IsClientShare shares.now second second_role.now other.now }
    ensures { result ≡ comes_before shares.now (holder_for shares.now first first_role.now)
        (holder_for shares.now second second_role.now) }
{
    if is_same_role(
        shares,
        first_role,
        one.role.place,
        second_role,
        other.role.place,
    ) {
        return comes_within_role(shares, first, one.own, second, other.own);
    }
    comes_by_role(shares, first_role, one.role, second_role, other.role)
}

/// The better one of the best so far and a client, with its shares. `place` is the likely place of
/// the client.
fn better_client<'a>(
    shares: &Shares,
    best: Option<&'a Client>,
    best_share: &mut ClientShare,
    client: &'a Client,
    place: usize,
) -> Option<&'a Client>
    requires { IfSome (option_copied best) (λ b. IsClientShare shares.now b.framework b.role
        best_share.old) }
    ensures better { option_copied result ≡ better_client shares.now (option_copied best.entry)
        client.entry.now }
    ensures share { IfSome (option_copied result) (λ b. IsClientShare shares.now b.framework b.role
        best_share.new) }
{
    let share = ClientShare::of(shares, client.framework, &client.role, place);
    let Some(other) = best else {
        *best_share = share;
        return Some(client);
    };
    if comes_before(
        shares,
        client.framework,
        &client.role,
        &share,
        other.framework,
        &other.role,
        best_share,
    ) {
        *best_share = share;
        Some(client)
    } else {
        best
    }
}

fn best_of<'a>(shares: &Shares, clients: &'a [Client]) -> Option<&'a Client>
    ensures { option_copied result ≡ fold (better_client shares.now) None clients.entry.now }
{
    let mut best = None;
    let mut share = ClientShare::nothing();
    for place in 0..clients.len() {
        best = better_client(shares, best, &mut share, &clients[place], place);
    }
    best
}

/// Of each name that agents own they own some amount, and each role has some weight.
fn are_sound(shares: &Shares)
    ensures positive { ArePositive shares.now.totals }
    ensures weighed { AreWeighed shares.now.roles }
{
    let _totals = shares.holdings.totals().rows();
    let _roles = shares.holdings.roles().as_slice();
}

/// The client that stands least: its role stands at most at each other's, ties by the roles' names,
/// and within its role it stands at most at each other, ties by the frameworks' ids. A role or a
/// framework that isn't registered in the shares holds nothing. None only where there is no client.
/// It takes no memory.
pub fn pick(shares: &Shares, clients: &[Client]) -> Option<FrameworkId>
    ensures { IsPick shares.now clients.now result }
{
    are_sound(shares);
    match best_of(shares, clients) {
        None => None,
        Some(client) => Some(client.framework),
    }
}
