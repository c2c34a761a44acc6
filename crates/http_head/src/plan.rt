//! How a request goes on after its head.

use names_core::StreamId;

/// The most bytes of a body.
pub const MAX_BODY: usize = 1_048_576;

/// How the body of a request comes (RFC 9112, section 6).
#[derive(Clone, Copy, Drop, PartialEq, Eq)]
pub enum Body {
    /// In so many bytes.
    Sized(usize),
    /// In chunks.
    Chunked,
}

/// How a request goes on after its head.
#[derive(Clone, Copy, Drop)]
pub struct Plan {
    pub body: Body,
    /// Whether the client waits for an interim response before it sends the body.
    pub expects: bool,
    /// Whether the connection ends after the response.
    pub closes: bool,
    /// The event stream of the framework that calls, where the head names one.
    pub stream: Option<StreamId>,
}
