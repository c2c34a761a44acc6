//! Events of which a replay has no text.

use event_json::write_event;
use messages::{Event, Message, Offers, SentOffer, TaskStatus};
use names_core::{AgentName, FrameworkId, NameFault, OfferId, TaskName, TaskState, UpdateId};
use quantity::Resources;
use std::alloc::{AllocError, Global};

/// The event's text.
fn written(alloc: Global, event: &Event) -> Result<String, AllocError> {
    match String::from_utf8(write_event(alloc, event)?) {
        Ok(text) => Ok(text),
        Err(_) => "no text".to_string(alloc),
    }
}

/// The error with this message.
pub(crate) fn message(alloc: Global, text: &str) -> Result<String, AllocError> {
    if text.len() > 255 {
        return "too long".to_string(alloc);
    }
    let message = Message::from_text(alloc, text)?;
    written(alloc, &Event::Error { message })
}

/// The status of task t1 where it has finished with this update, without its agent.
fn status(alloc: Global, text: &str) -> Result<TaskStatus, NameFault> {
    Ok(TaskStatus {
        task: TaskName::from_text(alloc, "t1")?,
        state: TaskState::Finished,
        agent: None,
        update: Some(UpdateId::from_text(alloc, text)?),
    })
}

pub(crate) fn finished(alloc: Global, text: &str) -> Result<String, AllocError> {
    match status(alloc, text) {
        Ok(status) => written(alloc, &Event::Update { status }),
        Err(fault) => format!(in alloc; "{fault}"),
    }
}

/// Offer O1-3 on this agent, of nothing.
fn offer(alloc: Global, agent: AgentName) -> SentOffer {
    SentOffer {
        id: OfferId::new(1, 3),
        framework: FrameworkId::new(1, 1),
        agent,
        resources: Resources::new(alloc),
    }
}

fn offers(alloc: Global, agent: AgentName) -> Result<Event, AllocError> {
    let mut offers = Vec::new(alloc);
    offers.push(offer(alloc, agent))?;
    let offers = Offers::from_vec(offers);
    Ok(Event::Offers { offers })
}

/// An offer of nothing on the agent of this name.
pub(crate) fn offered(alloc: Global, text: &str) -> Result<String, AllocError> {
    match AgentName::from_text(alloc, text) {
        Ok(agent) => written(alloc, &offers(alloc, agent)?),
        Err(fault) => format!(in alloc; "{fault}"),
    }
}
