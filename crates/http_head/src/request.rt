//! The requests of a connection, read from any inlet: heads,
//! and bodies of a length or in chunks (RFC 9112).

mod body;
mod chunks;
mod fault;
mod head;
mod inlet;
mod part;
mod unread;

pub use body::{Received, read_body};
pub use fault::ConnectionFault;
pub use head::{Head, next_head};
pub use inlet::{Inlet, Section};
pub use unread::Unread;
