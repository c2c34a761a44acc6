//! An agent's mail.

ghost use Rattle.std.specs.Prelude.{◌≡◌, ◌<◌, Some, IfOk, OnOk};
ghost use Rattle.stream_core.specs.Updates.{most_updates};
ghost use Rattle.messages.specs.declared.mail.AgentMail.TheVariants.{Applied, Report, Update};
ghost use Rattle.master_core.specs.MailingSteps.{Answered, turned_away};
ghost use Rattle.master_state.specs.Works.{run_of};
ghost use Rattle.cluster_model.specs.Mails.{FitsRecord};
ghost use Rattle.cluster_model.specs.Fits.{AreBookable, MailFitsAt};

use crate::mailing::opening::open_session;
use crate::mailing::sending;
use master_agents::TaskUpdate;
use master_state::State;
use messages::{AgentMail, Booked, MasterRefusal};
use names_core::AgentName;
use quantity::Resources;
use std::alloc::{AllocError, Global};
use values::Listed;

/// A Hello goes with every refusal but that of another run.
fn turn_away(
    state: &mut State,
    alloc: Global,
    agent: &AgentName,
    refusal: MasterRefusal,
) -> Result<Option<MasterRefusal>, AllocError>
    ensures refusal { IfOk result (λ event_sent. event_sent ≡ Some refusal) }
    ensures state { OnOk result (state.new ≡ turned_away agent.now refusal state.old) }
{
    if refusal != MasterRefusal::OtherRun {
        state.greet(alloc, agent)?;
    }
    Ok(Some(refusal))
}

fn receive_report(
    state: &mut State,
    alloc: Global,
    agent: &AgentName,
    session: u32,
    number: u32,
    tasks: Listed<Booked>,
    total: Resources,
) -> Result<Option<MasterRefusal>, AllocError>
    requires { AreBookable agent.now tasks total state.old.sides }
    ensures { Answered result state.old state.new agent.now (Report session number tasks total) }
{
    match state.sides.judge_report(agent, state.run, session, number) {
        Err(refusal) => turn_away(state, alloc, agent, refusal),
        Ok(false) => Ok(None),
        Ok(true) => {
            open_session(state, alloc, agent, session, number, tasks, total)?;
            Ok(None)
        }
    }
}

fn receive_applied(
    state: &mut State,
    alloc: Global,
    agent: &AgentName,
    session: u32,
    count: u32,
) -> Result<Option<MasterRefusal>, AllocError>
    ensures { Answered result state.old state.new agent.now (Applied session count) }
{
    if let Some(refusal) = state.sides.judge(agent, session) {
        return turn_away(state, alloc, agent, refusal);
    }
    match state.sides.receive_applied(alloc, agent, session, count) {
        Ok(()) => Ok(None),
        Err(_) => Err(AllocError),
    }
}

fn receive_update(
    state: &mut State,
    alloc: Global,
    agent: &AgentName,
    session: u32,
    update: &TaskUpdate,
) -> Result<Option<MasterRefusal>, AllocError>
    requires { update.now.k < most_updates }
    ensures { Answered result state.old state.new agent.now
        (Update session update.now.key update.now.k update.now.state update.now.ended) }
{
    if let Some(refusal) = state.sides.judge(agent, session) {
        return turn_away(state, alloc, agent, refusal);
    }
    let tasks = state.sides.tasks_of(agent);
    let events = &mut state.outs.events;
    sending::send_news(alloc, &state.frameworks, agent, update, tasks, events)?;
    state.sides.receive_update(agent, session, update);
    Ok(None)
}

/// Receives a mail of an agent (Mesos paper, section 3.5). A Report opens a session where it is of
/// this run and above the open session, or where none is open above every closed one: the agent's
/// offers are rescinded, its booked tasks that aren't reported and haven't ended are lost, filters
/// on it end, and the reported tasks are its books, with the reported total. An update goes to the
/// framework of its task, and after a count of applied commands the tasks are removed whose end
/// these acknowledge, or whose framework they end. Returns why the mail is refused, if it is: `G1
/// OtherRun` for a Report to a master of another run, and with a Hello to the agent `G2 OldSession`
/// below the open session, `G3 Closed` where none is open and this one is closed, `G4 NotOpen`
/// where no Report has opened it. Nothing happens where no agent of this name is configured.
pub fn mail(
    state: &mut State,
    alloc: Global,
    agent: &AgentName,
    mail: AgentMail,
) -> Result<Option<MasterRefusal>, AllocError>
    requires number { FitsRecord mail }
    requires fits { MailFitsAt (run_of state.old) agent.now mail state.old.sides }
    ensures { Answered result state.old state.new agent.now mail }
{
    match mail {
        AgentMail::Report {
            session,
            run,
            tasks,
            total,
        } => receive_report(state, alloc, agent, session, run, tasks, total),
        AgentMail::Applied { session, count } => receive_applied(
            state, alloc, agent, session, count,
        ),
        AgentMail::Update {
            session,
            key,
            k,
            state: task_state,
            ended,
        } => {
            let update = TaskUpdate {
                key,
                k,
                state: task_state,
                ended,
            };
            receive_update(state, alloc, agent, session, &update)
        }
    }
}
