//! What a book keeps of each agent.

ghost use Rattle.std.specs.Prelude.{◌≡◌, ◌<◌, [], true, false, if◌then◌else◌, map, length, bytes_eq};
ghost use Rattle.std.specs.List.{IsDistinct};
ghost use Rattle.quantity.specs.Rows.{AreRows};
ghost use Rattle.offer_tables.specs.Accounts.{unended_rows};
ghost use Rattle.offer_tables.specs.Rows.{ChangedAt, IsEmptied, IsFirst, IsGivenBack, IsLeft, IsPlaceOf, IsReset, TakesMore, has_room_in, is_row_named};

use crate::free_part::FreePart;
use indexmap::IndexSet;
use messages::Booked;
use names_core::AgentName;
use quantity::Resources;
use std::alloc::Global;

/// An agent, what it owns, and what of it is free.
#[derive(Drop)]
pub(crate) struct AgentRow {
    pub name: AgentName,
    /// The agent has entered, and wasn't dropped since.
    pub is_in: bool,
    pub total: Resources,
    /// What its offers and its booked tasks that haven't ended leave of it: from change to change.
    pub free: FreePart,
}

/// Where the row of a name is, if there is one.
pub(crate) fn named_place(
    names: &IndexSet<AgentName>,
    agents: &[AgentRow],
    name: &AgentName,
) -> Option<usize>
    requires { names.now.keys ≡ map (λ r. r.name) agents.now }
    ensures { IsFirst (is_row_named name.now) agents.now result }
{
    names.get_index_of(name)
}

/// Where the row of an agent is, if the agent is in.
pub(crate) fn place_of(
    names: &IndexSet<AgentName>,
    agents: &[AgentRow],
    name: &AgentName,
) -> Option<usize>
    requires named { names.now.keys ≡ map (λ r. r.name) agents.now }
    requires apart { IsDistinct bytes_eq names.now.keys }
    ensures { IsPlaceOf name.now agents.now result }
{
    let Some(place) = names.get_index_of(name) else {
        return None;
    };
    if agents[place].is_in {
        Some(place)
    } else {
        None
    }
}

pub(crate) fn set_free(agents: &mut Vec<AgentRow>, place: usize, free: FreePart)
    requires { place < length agents.old.items }
    ensures { ChangedAt (IsLeft free) place agents.old.items agents.new.items }
{
    agents[place].free = free;
}

/// What an offer has, or a task that hasn't ended uses, is given back.
pub(crate) fn give_back(agents: &mut Vec<AgentRow>, place: usize, more: &Resources)
    requires { place < length agents.old.items }
    ensures { ChangedAt (IsGivenBack more.now) place agents.old.items agents.new.items }
{
    let row = &mut agents[place];
    row.free = row.free.with_back(&row.total, more);
}

/// What a task uses is given back, if it hasn't ended.
pub(crate) fn give_back_task(agents: &mut Vec<AgentRow>, place: usize, task: &Booked)
    requires { place < length agents.old.items }
    ensures { ChangedAt (IsGivenBack (unended_rows task.now)) place agents.old.items
        agents.new.items }
{
    if !task.ended {
        give_back(agents, place, &task.job.resources);
    }
}

/// An agent leaves: it isn't in, and owns nothing.
pub(crate) fn vacate(agents: &mut Vec<AgentRow>, alloc: Global, place: usize)
    requires { place < length agents.old.items }
    ensures { ChangedAt (IsEmptied false []) place agents.old.items agents.new.items }
{
    let row = &mut agents[place];
    row.is_in = false;
    row.total = Resources::new(alloc);
    row.free = FreePart::whole(&row.total);
}

/// An agent is in again, and owns this.
pub(crate) fn occupy(agents: &mut Vec<AgentRow>, place: usize, total: Resources)
    requires { place < length agents.old.items }
    ensures { ChangedAt (IsEmptied true total) place agents.old.items agents.new.items }
{
    let row = &mut agents[place];
    row.is_in = true;
    row.free = FreePart::whole(&total);
    row.total = total;
}

/// An agent owns this, and all of it is free.
pub(crate) fn reset(agents: &mut Vec<AgentRow>, place: usize, total: Resources)
    requires { place < length agents.old.items }
    ensures { ChangedAt (IsReset total) place agents.old.items agents.new.items }
{
    let row = &mut agents[place];
    row.free = FreePart::whole(&total);
    row.total = total;
}

/// Whether there is room for what a task uses, if it hasn't ended.
pub(crate) fn has_room_for(row: &AgentRow, task: &Booked) -> bool
    ensures room { result ≡ has_room_in row.now.total row.now.free (unended_rows task.now) }
    ensures ordered { AreRows row.now.total }
{
    let _ordered = row.total.rows();
    if task.ended {
        return true;
    }
    row.free.has_room(&row.total, &task.job.resources)
}

/// What is free once a task is booked.
pub(crate) fn with_task(row: &AgentRow, task: &Booked) -> FreePart
    ensures { TakesMore row.now.total (unended_rows task.now) row.now.free result }
{
    if task.ended {
        return row.free.copied();
    }
    row.free.less(&row.total, &task.job.resources)
}

/// What a task uses is given back where it ends, if it hadn't ended.
pub(crate) fn settle(agents: &mut Vec<AgentRow>, place: usize, task: &Booked, ends: bool)
    requires { place < length agents.old.items }
    ensures { ChangedAt (IsGivenBack (if ends then unended_rows task.now else [])) place
        agents.old.items agents.new.items }
{
    if ends {
        give_back_task(agents, place, task);
    }
}
