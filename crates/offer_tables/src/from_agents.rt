//! What the master receives from an agent: sessions, updates and counts of applied commands.

ghost use Rattle.std.specs.Prelude.{◌≡◌, ◌==◌, ◌&&◌, ◌<◌, ◌⊎◌, ◌∷◌, [], ℕ, true, Ok, length, take, OnOk, OnErr, IfErr};
ghost use Rattle.messages.specs.declared.mail.Command.TheVariants.{Ack, EndFramework};
ghost use Rattle.offer_book.specs.Lists.{at_place};
ghost use Rattle.offer_tables.specs.Accounts.{after_commands, is_acknowledged, is_of_framework, receiving, reopened, without_task_at};
ghost use Rattle.offer_tables.specs.Books.{applied_on, received_on, reopened_on};
ghost use Rattle.offer_tables.specs.Found.{tasks_on};
ghost use Rattle.offer_tables.specs.Faults.{IsDue, IsRefusal};
ghost use Rattle.offer_tables.specs.Reports.{AreBookableOn};

use crate::book::OfferBook;
use crate::fault::BookFault;
use messages::{Booked, Command};
use names_core::{AgentName, FrameworkId, LaunchKey};
use offer_book::{Located, TaskUpdate};
use quantity::Resources;
use std::alloc::Global;
use values::Listed;

fn is_acknowledged(task: &Booked, k: u32) -> bool
    ensures { result ≡ is_acknowledged k task.now }
{
    task.ended && task.received > 0 && task.received - 1 == k && task.state.is_terminal()
}

fn is_of(task: &Booked, framework: FrameworkId) -> bool
    ensures { result ≡ is_of_framework framework task.now }
{
    task.job.framework == framework
}

/// Whether a task is at a place, and the update of a number acknowledges its end.
fn is_acknowledged_at(located: &Located<Booked>, place: usize, k: u32) -> bool
    ensures { result ≡ (located.now.place == place && is_acknowledged k located.now.item) }
{
    located.place == place && is_acknowledged(&located.item, k)
}

impl OfferBook {
    fn receive_at(&mut self, place: usize, update: &TaskUpdate)
        requires { update.now.k < 4294967295 }
        ensures { self.new ≡ at_place place
            (receiving update.now.key update.now.k update.now.state update.now.ended) self.old }
    {
        if let Some(located) = self.task_place(update.key) {
            if located.place == place {
                self.receive(update);
            }
        }
    }

    /// An update of a task on an agent is received. `B1 Unknown` where no agent of this name is in.
    /// It takes no memory.
    pub fn receive_on(&mut self, name: &AgentName, update: &TaskUpdate) -> Result<(), BookFault>
        requires { update.now.k < 4294967295 }
        ensures ok { OnOk result (received_on name.now update.now self.old ≡ Ok self.new) }
        ensures refused { IfErr result
            (λ fault. IsDue (received_on name.now update.now self.old) fault) }
        ensures err { OnErr result (self.new ≡ self.old) }
    {
        let Some(place) = self.place_of(name) else {
            return Err(BookFault::Unknown);
        };
        self.receive_at(place, update);
        Ok(())
    }

    /// The task of a key on the agent at a place is taken out, if the update of this number
    /// acknowledges its end.
    fn forget_acknowledged_at(&mut self, place: usize, key: LaunchKey, k: u32)
        ensures { self.new ≡ at_place place (after_commands (Ack key k ∷ [])) self.old }
    {
        if let Some(located) = self.task_place(key) {
            if is_acknowledged_at(located, place, k) {
                self.drop_task(key);
            }
        }
    }

    /// The task at an index on the agent at a place is taken out, if it is one of the framework.
    fn forget_at(&mut self, place: usize, index: usize, framework: FrameworkId)
        requires { index < length (tasks_on place self.old) }
        ensures { self.new ≡ at_place place (without_task_at (is_of_framework framework) index)
            self.old }
    {
        let key = self.tasks_on(place)[index];
        if let Some(located) = self.task_place(key) {
            if is_of(&located.item, framework) {
                self.drop_task(key);
            }
        }
    }

    fn forget_of_at(&mut self, place: usize, framework: FrameworkId)
        ensures { self.new ≡ at_place place (after_commands (EndFramework framework ∷ []))
            self.old }
    {
        let mut index = self.tasks_on(place).len();
        while index > 0 {
            index -= 1;
            self.forget_at(place, index, framework);
        }
    }

    fn forget_one_at(&mut self, place: usize, command: &Command)
        ensures { self.new ≡ at_place place (after_commands (command.now ∷ [])) self.old }
    {
        match command {
            Command::Launch(_job, _offers) => {}
            Command::Kill(_key) => {}
            Command::Ack(key, k) => self.forget_acknowledged_at(place, *key, *k),
            Command::EndFramework(framework) => self.forget_of_at(place, *framework),
        }
    }

    fn forget_by_at(&mut self, place: usize, commands: &[Command])
        ensures { self.new ≡ at_place place (after_commands commands.now) self.old }
    {
        for command in commands {
            self.forget_one_at(place, command);
        }
    }

    /// An agent has applied these commands: a task is taken out whose end is acknowledged by one,
    /// or whose framework one ends. `B1 Unknown` where no agent of this name is in. It takes no
    /// memory.
    pub fn forget_by(&mut self, name: &AgentName, commands: &[Command]) -> Result<(), BookFault>
        ensures ok { OnOk result (applied_on name.now commands.now self.old ≡ Ok self.new) }
        ensures refused { IfErr result
            (λ fault. IsDue (applied_on name.now commands.now self.old) fault) }
        ensures err { OnErr result (self.new ≡ self.old) }
    {
        let Some(place) = self.place_of(name) else {
            return Err(BookFault::Unknown);
        };
        self.forget_by_at(place, commands);
        Ok(())
    }

    /// An agent's session opens: its offers are removed, the reported tasks replace those that are
    /// booked, and the agent owns the reported total. `B1 Unknown` where no agent of this name is
    /// in. Where memory is refused, the first so many of the tasks are booked.
    pub fn reopen(
        &mut self,
        alloc: Global,
        name: &AgentName,
        tasks: Listed<Booked>,
        total: Resources,
    ) -> Result<(), BookFault>
        requires { AreBookableOn name.now tasks total self.old }
        ensures ok { OnOk result (reopened_on name.now tasks total self.old ≡ Ok self.new) }
        ensures refused { IfErr result
            (λ fault. IsRefusal fault (reopened_on name.now tasks total self.old)) }
        ensures err { OnErr result ((self.new ≡ self.old)
            ⊎ ((n : ℕ) × (reopened_on name.now (take n tasks) total self.old ≡ Ok self.new))) }
    {
        match self.empty_agent(name, total) {
            Ok(()) => {}
            Err(fault) => return Err(fault),
        }
        for task in tasks.into_vec() {
            match self.book(alloc, name, task) {
                Ok(()) => {}
                Err(fault) => return Err(fault),
            }
        }
        Ok(())
    }
}
