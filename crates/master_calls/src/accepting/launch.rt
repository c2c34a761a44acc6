//! Launches: tasks are booked on their agent, and a command goes there for each.

ghost use Rattle.std.specs.Prelude.{◌≡◌, true, false, fold, IfOk, OnOk};
ghost use Rattle.messages.specs.declared.mail.Command.TheVariants.{Launch};
ghost use Rattle.offer_tables.specs.Accounts.{unended_rows};
ghost use Rattle.master_agents.specs.Looks.{value_of};
ghost use Rattle.master_agents.specs.Taking.{fits, is_booked};
ghost use Rattle.master_calls.specs.Launches.{AreNew, HasRoomFor, booked_on, launched_one};

use master_state::State;
use messages::{Booked, Command, Job};
use names_core::{AgentName, OfferId};
use std::alloc::{AllocError, Global};
use values::{Listed, Plain, copies_of};

fn launch_of(alloc: Global, job: &Job, ids: &[OfferId]) -> Result<Command, AllocError>
    ensures { IfOk result (λ command. command ≡ Launch job.now ids.now) }
{
    let job = job.copy()?;
    let offers = Listed::from_vec(copies_of(alloc, ids)?);
    Ok(Command::Launch(job, offers))
}

/// Books a task on its agent, under the key that is the last one from then on.
fn book(
    state: &mut State,
    alloc: Global,
    agent: &AgentName,
    task: &Booked,
) -> Result<(), AllocError>
    requires new { is_booked task.now.job.key state.old.sides ≡ false }
    requires room { value_of agent.now (fits (unended_rows task.now)) false state.old.sides ≡ true }
    ensures { OnOk result (state.new ≡ booked_on agent.now task.now state.old) }
{
    let task = task.copy()?;
    state.last_key = task.job.key.number();
    state.sides.book_on(alloc, agent, task)
}

fn launch_one(
    state: &mut State,
    alloc: Global,
    agent: &AgentName,
    ids: &[OfferId],
    task: &Booked,
) -> Result<(), AllocError>
    requires new { is_booked task.now.job.key state.old.sides ≡ false }
    requires room { value_of agent.now (fits (unended_rows task.now)) false state.old.sides ≡ true }
    ensures { OnOk result (state.new ≡ launched_one agent.now ids.now state.old task.now) }
{
    book(state, alloc, agent, task)?;
    let command = launch_of(alloc, &task.job, ids)?;
    let copy = launch_of(alloc, &task.job, ids)?;
    state.order(alloc, agent, command, copy)
}

/// Tasks are launched on an agent from the offers of these ids, in order.
pub fn launch_all(
    state: &mut State,
    alloc: Global,
    agent: &AgentName,
    ids: &[OfferId],
    tasks: &[Booked],
) -> Result<(), AllocError>
    requires new { AreNew tasks.now state.old.sides }
    requires room { HasRoomFor agent.now tasks.now state.old.sides }
    ensures { OnOk result (state.new ≡ fold (launched_one agent.now ids.now) state.old tasks.now) }
{
    for task in tasks {
        launch_one(state, alloc, agent, ids, task)?;
    }
    Ok(())
}
