//! What a connection got for a bench.

ghost use Rattle.std.specs.Prelude.{◌≡◌};
ghost use Rattle.desk_lock.specs.Waits.{StreamEnds};
ghost use Rattle.http_serve.specs.Seated.{SeatingDoes, pass_of};

use crate::bench::SeatBench;
use desk_core::{KeptEntry, Running};
use desk_lock::Pass;
use http_door::{Answer, Bench, BenchFault};
use messages::{Call, Event};
use names_core::StreamId;
use std::alloc::AllocError;
use std::sync::{Wait, ledger};

/// The bench of a connection: a seat, or, where none could be opened, one that refuses every call.
#[derive(Drop)]
pub enum Seating<'a, D: Running, L: ledger::Ledger, R: Wait> {
    Seat(SeatBench<'a, D, L, R>),
    Refusing(BenchFault),
}

impl<'a, D: Running, L: ledger::Ledger, R: Wait> Seating<'a, D, L, R> {
    /// The pass of the seat.
    pub fn into_pass(self) -> Option<Pass<KeptEntry, L>>
        ensures { result ≡ pass_of self.entry }
    {
        match self {
            Seating::Seat(bench) => Some(bench.into_pass()),
            Seating::Refusing(_) => None,
        }
    }
}

impl<'a, D: Running, L: ledger::Ledger, R: Wait> Bench for Seating<'a, D, L, R> {
    ghost does = { SeatingDoes D.is_taken D.is_refused
        (StreamEnds D.history D.sound D.stream_of) };

    fn call(&mut self, stream: Option<StreamId>, call: Call) -> Answer {
        match self {
            Seating::Seat(bench) => bench.call(stream, call),
            Seating::Refusing(fault) => {
                drop(call);
                Answer::Refused(*fault)
            }
        }
    }

    fn next_events(&mut self, stream: StreamId) -> Result<Option<Event>, AllocError> {
        match self {
            Seating::Seat(bench) => bench.next_events(stream),
            Seating::Refusing(_) => Ok(None),
        }
    }

    fn hang_up(&mut self, stream: StreamId) {
        if let Seating::Seat(bench) = self {
            bench.hang_up(stream);
        }
    }
}
