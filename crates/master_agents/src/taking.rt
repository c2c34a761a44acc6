//! Offers that are made and tasks that are booked, each on the agent of a name.

ghost use Rattle.std.specs.Prelude.{◌≡◌, true, false, Ok, OnOk, OnErr};
ghost use Rattle.offer_tables.specs.Accounts.{unended_rows};
ghost use Rattle.master_agents.specs.Changes.{offering, with_task};
ghost use Rattle.master_agents.specs.Looks.{at_name, value_of};
ghost use Rattle.master_agents.specs.Taking.{fits, is_booked, is_offered, offered_to};

use crate::sides::Sides;
use messages::{Booked, Offer};
use names_core::AgentName;
use offer_tables::BookFault;
use std::alloc::{AllocError, Global};

impl Sides {
    /// Makes an offer on the agent of a name, where no current offer has its id and the agent's
    /// total has room for it beside what is taken of the agent. So only memory can be refused.
    pub fn offer_to(&mut self, name: &AgentName, offer: Offer) -> Result<(), AllocError>
        requires fresh { is_offered offer.id self.old ≡ false }
        requires room { value_of name.now (fits offer.resources) false self.old ≡ true }
        ensures ok { OnOk result (offered_to name.now offer self.old ≡ Ok self.new) }
        ensures offering { OnOk result (self.new ≡ at_name name.now (offering offer) self.old) }
        ensures err { OnErr result (self.new ≡ self.old) }
    {
        match self.book.offer(name, offer) {
            Ok(()) => Ok(()),
            Err(BookFault::OutOfMemory) => Err(AllocError),
            Err(BookFault::Unknown) => unreachable!(),
            Err(BookFault::NoRoom) => unreachable!(),
            Err(BookFault::Twice) => unreachable!(),
        }
    }

    /// Books a task on the agent of a name, where no booked task has its launch key and the agent's
    /// total has room for what the task uses beside what is taken of the agent; a task that has
    /// ended uses nothing. So only memory can be refused.
    pub fn book_on(
        &mut self,
        alloc: Global,
        name: &AgentName,
        task: Booked,
    ) -> Result<(), AllocError>
        requires new { is_booked task.job.key self.old ≡ false }
        requires room { value_of name.now (fits (unended_rows task)) false self.old ≡ true }
        ensures booked { OnOk result (self.new ≡ at_name name.now (with_task task) self.old) }
        ensures err { OnErr result (self.new ≡ self.old) }
    {
        match self.book.book(alloc, name, task) {
            Ok(()) => Ok(()),
            Err(BookFault::OutOfMemory) => Err(AllocError),
            Err(BookFault::Unknown) => unreachable!(),
            Err(BookFault::NoRoom) => unreachable!(),
            Err(BookFault::Twice) => unreachable!(),
        }
    }
}
