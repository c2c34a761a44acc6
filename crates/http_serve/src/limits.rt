//! The limits of connections.

use crate::places::Places;

/// How many connections are taken, how long one may wait for its client, how many streams may be
/// open and how many large bodies may be read at once, and whether a refusal ends the serving.
#[derive(Clone, Copy, Drop)]
pub struct ConnectionLimits<'a> {
    /// So many connections are taken at most; with 0 there is no limit.
    pub connections: u64,
    /// A connection from which no byte came for so many seconds is at the end of its input, and so
    /// is one whose head, or large body, takes ten times as many; with 0 it waits for ever.
    pub idle_seconds: u64,
    /// The places of streams, for these connections alone.
    pub streams: &'a Places,
    /// The places of bodies of which over 64 KiB are read, for these connections alone.
    pub bodies: &'a Places,
    /// Whether more connections are taken after one for which memory or a thread was refused.
    pub keep_serving: bool,
}
