//! Events on streams.

ghost use Rattle.std.proofs.Common.{rules};

use crate::events::event::Event;
use names_core::StreamId;
use values::Plain;

/// An event on a stream.
#[derive(Clone, Drop, PartialEq)]
pub struct StreamEvent {
    pub stream: StreamId,
    pub event: Event,
}

impl Plain for StreamEvent {
    ghost use Rattle.messages.specs.contracts.events.event.EventPlain.TheImpl.Laws.{decided-law as event_decided};

    ghost cloned = { Prim.search rules };

    ghost decided = { Prim.search (rules, event_decided) };
}
