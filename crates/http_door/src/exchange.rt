//! The law that an exchange over HTTP is a function: one input and one bench have one exchange.

ghost use Rattle.http_door.specs.Function.{IsFunction};

use crate::Inlet;

/// What a connection comes to that doesn't break off is determined by the bytes that its client
/// sends, by the bench's answers, and by the request, if any, at which the reading of the call runs
/// out of memory: two such connections ask the bench the same and send the same back. Neither how
/// the bytes are cut into pieces nor when the inlet says that it has ended makes a difference.
pub fn exchange_is_a_function<I: Inlet, J: Inlet>(one: &I, other: &J)
    ensures { IsFunction (I.ended one.now) (J.ended other.now) }
{}
