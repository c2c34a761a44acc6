//! Who takes the calls of a connection.

ghost use Rattle.std.specs.Prelude.{Option, Result, List};
ghost use Rattle.http_door.specs.Deeds.{Deed, calls, nexts, hangs_up};

use crate::refusal::BenchFault;
use messages::{Call, Event};
use names_core::StreamId;
use std::alloc::AllocError;

/// What became of a call.
#[derive(Clone, Copy, Drop, PartialEq, Eq)]
pub enum Answer {
    Accepted,
    /// It was accepted, and opened this event stream.
    Opened(StreamId),
    Refused(BenchFault),
}

/// Who takes the calls of a connection.
pub trait Bench {
    /// In the one state the bench was asked this, and what it answered left the other state.
    ghost does: { Self → Deed → Self → Type 0 };

    /// Takes a call, with the stream that the request names.
    fn call(&mut self, stream: Option<StreamId>, call: Call) -> Answer
        ensures { does self.old (calls stream call result) self.new };

    /// Waits for the next event of a stream that this bench opened, and takes it.
    /// `None` once the stream is closed and all its events were taken.
    fn next_events(&mut self, stream: StreamId) -> Result<Option<Event>, AllocError>
        ensures { does self.old (nexts stream result) self.new };

    /// The connection of a stream that this bench opened has ended.
    fn hang_up(&mut self, stream: StreamId)
        ensures { does self.old (hangs_up stream) self.new };
}
