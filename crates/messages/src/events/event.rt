//! The events.

ghost use Rattle.std.proofs.Common.{rules};

use crate::events::message::Message;
use crate::events::offers::Offers;
use crate::events::status::TaskStatus;
use names_core::{AgentName, FrameworkId, OfferId};
use values::Plain;

/// What the master sends to a framework (Mesos scheduler HTTP API, Events).
#[derive(Clone, PartialEq)]
pub enum Event {
    /// The stream is open, for the framework of this id.
    Subscribed { framework: FrameworkId },
    /// Resources that the framework may use.
    Offers { offers: Offers },
    /// An offer that may be used no longer.
    Rescind { offer: OfferId },
    /// What became of a task.
    Update { status: TaskStatus },
    /// An agent was lost.
    Failure { agent: AgentName },
    /// The framework did something wrong, or may not go on.
    Error { message: Message },
    /// No content; it is sent at intervals, so that the stream isn't idle.
    Heartbeat,
}

// By hand, so that who drops one goes through none of its parts.
impl Drop for Event {
    fn drop(self) {
        match self {
            Event::Subscribed { framework: _ } => {}
            Event::Offers { offers: _ } => {}
            Event::Rescind { offer: _ } => {}
            Event::Update { status: _ } => {}
            Event::Failure { agent: _ } => {}
            Event::Error { message: _ } => {}
            Event::Heartbeat => {}
        }
    }
}

impl Plain for Event {
    ghost use Rattle.messages.specs.contracts.events.message.MessagePlain.TheImpl.Laws.{decided-law as message_decided};
    ghost use Rattle.messages.specs.contracts.events.offers.OffersPlain.TheImpl.Laws.{decided-law as offers_decided};
    ghost use Rattle.messages.specs.contracts.events.status.TaskStatusPlain.TheImpl.Laws.{decided-law as status_decided};
    ghost use Rattle.messages.specs.declared.events.event.Event.TheVariants.{Error, Failure, Heartbeat, Offers, Rescind, Subscribed, Update};

    ghost cloned = { Prim.search rules };

    ghost decided = { elim [
      | Subscribed f ↦ elim [ Subscribed g ↦ Prim.search rules | _ ↦ Prim.search rules ]
      | Offers o ↦ elim [
        | Offers p ↦ (let d = offers_decided o p in (
          (λ h. let e = d.0 h in
              Prim.search rules),
          (λ e. d.1 (Prim.search rules)),
        ))
        | _ ↦ Prim.search rules
      ]
      | Rescind o ↦ elim [ Rescind p ↦ Prim.search rules | _ ↦ Prim.search rules ]
      | Update s ↦ elim [
        | Update t ↦ (let d = status_decided s t in (
          (λ h. let e = d.0 h in
              Prim.search rules),
          (λ e. d.1 (Prim.search rules)),
        ))
        | _ ↦ Prim.search rules
      ]
      | Failure a ↦ elim [ Failure b ↦ Prim.search rules | _ ↦ Prim.search rules ]
      | Error m ↦ elim [
        | Error n ↦ (let d = message_decided m n in (
          (λ h. let e = d.0 h in
              Prim.search rules),
          (λ e. d.1 (Prim.search rules)),
        ))
        | _ ↦ Prim.search rules
      ]
      | Heartbeat ↦ elim [ Heartbeat ↦ Prim.search rules | _ ↦ Prim.search rules ]
    ] };
}
