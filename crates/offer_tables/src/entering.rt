//! Agents that enter a book.

ghost use Rattle.std.specs.Prelude.{◌≡◌, ◌<◌, ◌≤◌, ◌++◌, ◌∷◌, [], None, length, OnOk, OnErr};
ghost use Rattle.offer_tables.specs.Accounts.{new_account};
ghost use Rattle.offer_tables.specs.Rows.{IsBook, IsFirst, SameOrMore, accounts, is_row_named};

use crate::agents::AgentRow;
use crate::free_part::FreePart;
use indexmap::IndexSet;
use names_core::AgentName;
use offer_book::{BookedTasks, Offers};
use quantity::Resources;
use std::alloc::{AllocError, Global};
use values::Plain;

fn add_offers_place(offers: &mut Offers, alloc: Global, place: usize) -> Result<(), AllocError>
    requires { place ≤ length offers.old }
    ensures ok { OnOk result (place < length offers.new) }
    ensures same { SameOrMore offers.old offers.new }
{
    if place < offers.places() {
        return Ok(());
    }
    offers.add_place(alloc)?;
    Ok(())
}

fn add_tasks_place(tasks: &mut BookedTasks, alloc: Global, place: usize) -> Result<(), AllocError>
    requires { place ≤ length tasks.old }
    ensures ok { OnOk result (place < length tasks.new) }
    ensures same { SameOrMore tasks.old tasks.new }
{
    if place < tasks.places() {
        return Ok(());
    }
    tasks.add_place(alloc)?;
    Ok(())
}

fn add_places(
    offers: &mut Offers,
    tasks: &mut BookedTasks,
    alloc: Global,
    place: usize,
) -> Result<(), AllocError>
    requires offers { place ≤ length offers.old }
    requires tasks { place ≤ length tasks.old }
    ensures ok { OnOk result ((place < length offers.new) × (place < length tasks.new)) }
    ensures same_offers { SameOrMore offers.old offers.new }
    ensures same_tasks { SameOrMore tasks.old tasks.new }
{
    add_offers_place(offers, alloc, place)?;
    add_tasks_place(tasks, alloc, place)?;
    Ok(())
}

/// Appends a row for an agent whose name is new. Where memory is refused, no account is added.
pub(crate) fn append(
    names: &mut IndexSet<AgentName>,
    agents: &mut Vec<AgentRow>,
    offers: &mut Offers,
    tasks: &mut BookedTasks,
    alloc: Global,
    name: AgentName,
    total: Resources,
) -> Result<(), AllocError>
    requires book { IsBook names.old.keys agents.old.items offers.old tasks.old }
    requires new { IsFirst (is_row_named name) agents.old.items None }
    ensures book { IsBook names.new.keys agents.new.items offers.new tasks.new }
    ensures ok { OnOk result (accounts agents.new.items offers.new tasks.new
        ≡ accounts agents.old.items offers.old tasks.old ++ new_account name total ∷ []) }
    ensures err { OnErr result (accounts agents.new.items offers.new tasks.new
        ≡ accounts agents.old.items offers.old tasks.old) }
{
    let place = agents.len();
    let row = AgentRow {
        name: name.copy()?,
        is_in: true,
        free: FreePart::whole(&total),
        total,
    };
    agents.reserve(1)?;
    add_places(offers, tasks, alloc, place)?;
    names.insert(name)?;
    agents.push_reserved(row);
    Ok(())
}
