//! Where connections come from.

ghost use Rattle.std.specs.Prelude.{◌≡◌, ℕ, ◌+◌, ◌<◌, IfNone, IfSome, OnSome};

use crate::workers::fault::HttpFault;
use http_door::{Bench, Inlet, Outlet};

/// Connections, in the order in which they come.
pub trait Arrivals {
    /// What a client sends.
    type In: Inlet + Send + Drop;

    /// What a client is sent.
    type Out: Outlet + Send + Drop;

    /// Who takes the calls of a connection.
    type Seat: Bench + Send;

    /// How many connections were taken.
    ghost taken: { Self → ℕ };

    /// What is known of the bench of a connection that is taken.
    ghost is_seat: { Self.Seat → Type 0 };

    /// No more connections come.
    ghost ended: { Self → Type 0 };

    /// Waits for the next connection, and takes it. `None` once no more come.
    fn next(&mut self) -> Option<(Self::In, Self::Out, Self::Seat)>
        ensures inlet_countable { IfSome result (λ c. Self.In.faults c.0 < u64.MAX) }
        ensures outlet_countable { IfSome result (λ c. Self.Out.faults c.1 < u64.MAX) }
        ensures seat { IfSome result (λ c. is_seat c.2) }
        ensures one { OnSome result (taken self.new ≡ taken self.old + 1) }
        ensures none { IfNone result (taken self.new ≡ taken self.old) }
        ensures end { IfNone result (ended self.new) };

    /// A connection couldn't be served, for this fault: with `H8 OutOfMemory` none was taken, and with
    /// `H9 NoThread` it is closed. Says whether the next one is taken all the same.
    fn bears(&mut self, fault: HttpFault) -> bool
        ensures { taken self.new ≡ taken self.old };

    /// No more connections are taken, for this fault. Who waits on those that were taken is to end.
    fn give_up(&mut self, fault: HttpFault)
        ensures { taken self.new ≡ taken self.old };
}
