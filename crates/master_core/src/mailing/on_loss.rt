//! An agent is lost.

ghost use Rattle.std.specs.Prelude.{◌≡◌, OnOk};
ghost use Rattle.master_state.specs.Works.{done, master_of, work_of};
ghost use Rattle.master_core.specs.MailingSteps.{left};
ghost use Rattle.master_agents.specs.Named.{lost_by};

use crate::mailing::reported::Reported;
use crate::mailing::sending;
use master_state::State;
use names_core::AgentName;
use std::alloc::{AllocError, Global};

fn lose_open(state: &mut State, alloc: Global, agent: &AgentName) -> Result<(), AllocError>
    ensures { OnOk result (state.new ≡ left agent.now state.old) }
{
    let events = &mut state.outs.events;
    sending::send_rescinds(&state.frameworks, state.sides.offers_of(agent), events)?;
    let tasks = state.sides.tasks_of(agent);
    let none = Reported::none(alloc);
    sending::send_losses(alloc, &state.frameworks, agent, &none, tasks, events)?;
    sending::send_failures(alloc, agent, state.frameworks.as_slice(), events)?;
    state.frameworks.clear_filters_on(agent);
    state.sides.lose_named(alloc, agent);
    state.greet(alloc, agent)
}

/// An agent that has an open session is lost: its offers are rescinded, its booked tasks that
/// haven't ended are lost, FAILURE is sent to subscribed frameworks, and filters on it end; its
/// session is closed, its offers and tasks are removed, and a Hello goes to it. Nothing happens
/// where no session is open, and where no agent of this name is configured.
pub fn lose_agent(state: &mut State, alloc: Global, agent: &AgentName) -> Result<(), AllocError>
    ensures { OnOk result (work_of state.new
        ≡ done (lost_by (master_of state.old) agent.now) (work_of state.old)) }
{
    if !state.sides.is_open(agent) {
        return Ok(());
    }
    lose_open(state, alloc, agent)
}
