//! What agents own enters the shares when their sessions open, and leaves them when these close.

ghost use Rattle.std.specs.Prelude.{◌≡◌, ◌<◌, length, set, OnOk};
ghost use Rattle.quantity.specs.Laws.{SameAmounts};
ghost use Rattle.drf_pick.specs.Allocations.{AddUp};
ghost use Rattle.drf_pick.specs.Shown.{IsCounted, StayCounted, all_owned};
ghost use Rattle.master_rounds.specs.Owned.{AreUpToDate, IsUpToDateAt, LeavesAt, each_owned, owned_of, totals_in};

use drf_pick::CountedShares;
use master_agents::{AgentSide, Sides};
use std::alloc::{AllocError, Global};
use values::Plain;

/// An agent leaves whose session closed, or that owns something else than it entered with.
fn leave_at(
    counted: &mut CountedShares,
    alloc: Global,
    place: usize,
    agent: &AgentSide<'_>,
) -> Result<(), AllocError>
    requires { place < length counted.old.owned.items }
    ensures left { OnOk result (LeavesAt place agent.now counted.old.owned.items
        counted.new.owned.items) }
    ensures counted { OnOk result (StayCounted counted.old counted.new) }
    ensures found { counted.new.found ≡ counted.old.found }
{
    let _sum = counted.shares.totals().rows();
    let Some(total) = &counted.owned[place] else {
        return Ok(());
    };
    if agent.is_open() && total.is_same(agent.total()) {
        return Ok(());
    }
    match counted.shares.leave(alloc, total) {
        Ok(()) => {}
        Err(_) => return Err(AllocError),
    }
    counted.owned[place] = None;
    Ok(())
}

/// The agents leave whose sessions closed, or that own something else than they entered with.
fn leave_all(counted: &mut CountedShares, alloc: Global, sides: &Sides) -> Result<(), AllocError>
    requires { length counted.old.owned.items ≡ length sides.now }
    ensures left { OnOk result (AreUpToDate sides.now
        counted.new.owned.items) }
    ensures counted { OnOk result (StayCounted counted.old counted.new) }
    ensures found { counted.new.found ≡ counted.old.found }
{
    for place in 0..sides.len() {
        let Some(agent) = sides.at(place) else {
            unreachable!();
        };
        leave_at(counted, alloc, place, &agent)?;
    }
    Ok(())
}

/// An agent enters whose session is open, if it hasn't entered.
fn enter_at(
    counted: &mut CountedShares,
    alloc: Global,
    place: usize,
    agent: &AgentSide<'_>,
) -> Result<(), AllocError>
    requires within { place < length counted.old.owned.items }
    requires left { IsUpToDateAt place agent.now counted.old.owned.items }
    requires owned { SameAmounts counted.old.shares.totals (all_owned counted.old.owned.items) }
    requires sums { AddUp (all_owned (set counted.old.owned.items place
        (owned_of agent.now))) }
    ensures entered { OnOk result (counted.new.owned.items
        ≡ set counted.old.owned.items place (owned_of agent.now)) }
    ensures counted { OnOk result (StayCounted counted.old counted.new) }
    ensures found { counted.new.found ≡ counted.old.found }
{
    if !agent.is_open() || counted.owned[place].is_some() {
        return Ok(());
    }
    let total = agent.total().copy()?;
    match counted.shares.enter(alloc, &total) {
        Ok(()) => {}
        Err(_) => return Err(AllocError),
    }
    counted.owned[place] = Some(total);
    Ok(())
}

/// The agents enter whose sessions are open, if they haven't entered.
fn enter_all(counted: &mut CountedShares, alloc: Global, sides: &Sides) -> Result<(), AllocError>
    requires counted { IsCounted counted.old }
    requires left { AreUpToDate sides.now counted.old.owned.items }
    requires sums { AddUp (totals_in sides.now) }
    ensures entered { OnOk result (counted.new.owned.items
        ≡ each_owned sides.now) }
    ensures counted { OnOk result (StayCounted counted.old counted.new) }
    ensures found { counted.new.found ≡ counted.old.found }
{
    for place in 0..sides.len() {
        let Some(agent) = sides.at(place) else {
            unreachable!();
        };
        enter_at(counted, alloc, place, &agent)?;
    }
    Ok(())
}

/// The shares have what the agents with an open session own, and nothing of others. An agent that
/// owns the same as in the round before costs a comparison.
pub(crate) fn own_all(
    counted: &mut CountedShares,
    alloc: Global,
    sides: &Sides,
) -> Result<(), AllocError>
    requires counted { IsCounted counted.old }
    requires many { length counted.old.owned.items ≡ length sides.now }
    requires sums { AddUp (totals_in sides.now) }
    ensures entered { OnOk result (counted.new.owned.items
        ≡ each_owned sides.now) }
    ensures counted { OnOk result (StayCounted counted.old counted.new) }
    ensures found { counted.new.found ≡ counted.old.found }
{
    leave_all(counted, alloc, sides)?;
    enter_all(counted, alloc, sides)
}
