//! The connection that a worker serves.

ghost use Rattle.std.specs.Prelude.{◌≡◌, ◌<◌, List};
ghost use Rattle.http_door.specs.Deeds.{Deed, Chain};

use crate::workers::floor::Ticket;
use http_door::{Bench, Gate, Inlet, Outlet, serve_conn};
use std::alloc::Global;
use std::sync::ledger;

/// A connection, whose failed reads and writes can still be counted, and the ticket with which its
/// bench returns.
#[derive(Drop)]
pub struct Job<I: Inlet + Drop, O: Outlet + Drop, B: Bench, L: ledger::Ledger> {
    pub inlet: I,
    pub outlet: O,
    pub bench: B,
    pub ticket: Ticket<L>,
    pub ghost inlet_countable: { I.faults inlet < 18446744073709551615 },
    pub ghost outlet_countable: { O.faults outlet < 18446744073709551615 },
}

impl<I: Inlet + Drop, O: Outlet + Drop, B: Bench, L: ledger::Ledger> Job<I, O, B, L> {
    /// Serves the connection until it ends or breaks off, closes both of its ends,
    /// and returns the bench that took its calls, with its ticket.
    pub fn serve<G: Gate>(self, alloc: Global, gate: &G) -> (B, Ticket<L>)
        ensures { (deeds : List Deed) × Chain B.does self.bench deeds result.0 }
    {
        let Job {
            mut inlet,
            mut outlet,
            mut bench,
            ticket,
        } = self;
        let _served = serve_conn(alloc, &mut inlet, &mut outlet, &mut bench, gate);
        (bench, ticket)
    }
}
