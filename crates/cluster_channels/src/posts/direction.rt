//! The ways in which something is sent.

/// Which way something was sent. An agent is named by its place.
#[derive(Clone, Copy, PartialEq, Eq)]
pub enum Direction {
    Call,
    ToAgent(usize),
    FromAgent(usize),
}
