//! What is free of agents.

ghost use Rattle.std.specs.Prelude.{◌≡◌, None, length, option_map, IfOk};
ghost use Rattle.std.specs.List.{AllByRecursion};
ghost use Rattle.quantity.specs.Rows.{AreRows};
ghost use Rattle.roster.specs.Places.{value_at};
ghost use Rattle.master_agents.specs.Free.{open_part};

use crate::agent::AgentSide;
use crate::sides::Sides;
use names_core::AgentName;
use quantity::Resources;
use std::alloc::AllocError;

fn open_part_of<'a>(side: &AgentSide<'a>) -> Result<Option<(&'a AgentName, Resources)>, AllocError>
    ensures { IfOk result (λ part. option_map (λ p. (p.0.now, p.1)) part ≡ open_part side.now) }
{
    if !side.is_open() {
        return Ok(None);
    }
    let free = side.free()?;
    Ok(Some((side.name(), free)))
}

impl Sides {
    /// How many agents there are.
    pub fn len(&self) -> usize
        ensures { result ≡ length self.now }
    {
        self.roster.entries().len()
    }

    /// The agent at a place, and what is free there, where it has an open session.
    pub fn open_part(&self, place: usize) -> Result<Option<(&AgentName, Resources)>, AllocError>
        ensures { IfOk result (λ part. option_map (λ p. (p.0.now, p.1)) part
            ≡ value_at place open_part None self.now) }
    {
        match self.at(place) {
            Some(side) => open_part_of(&side),
            None => Ok(None),
        }
    }

    /// What each agent owns are rows of resources.
    pub fn own_rows(&self)
        ensures { AllByRecursion (λ s. AreRows s.total) self.now }
    {
        for side in self.iter() {
            let _total = side.total();
        }
    }
}
