//! Roles in the order of their names.

ghost use Rattle.std.specs.Prelude.{◌≡◌, IfOk};
ghost use Rattle.std.specs.BTreeMap.{get_by_text};
ghost use Rattle.drf_pick.specs.Places.{AreFoundBy, AreRanks, rank_at};

use crate::holder::RoleSum;
use std::alloc::{AllocError, Global};
use std::collections::BTreeMap;

/// The rank of each role, at its place: how many others come before it by their names.
pub(crate) fn ranks_of(
    alloc: Global,
    sums: &[RoleSum],
    places: &BTreeMap<String, usize>,
) -> Result<Vec<Option<usize>>, AllocError>
    requires { AreFoundBy (get_by_text places.now) sums.now }
    ensures { IfOk result (λ ranks. AreRanks (get_by_text places.now) ranks.items) }
{
    let mut ranks = vec![in alloc; None; sums.len()]?;
    let mut rank = 0;
    for (_, place) in places.iter() {
        ranks[*place] = Some(rank);
        rank += 1;
    }
    Ok(ranks)
}

/// The rank of the role at a place, if it is ranked.
pub(crate) fn rank_at(ranks: &[Option<usize>], place: Option<usize>) -> Option<usize>
    ensures { result ≡ rank_at ranks.now place }
{
    *ranks.get(place?)?
}
