//! What clients do, as data.

use crate::requests::*;

/// What a client does next. Its connections have numbers,
/// from 0 in the order in which they were opened.
#[derive(Clone, Copy, Drop)]
pub enum Move {
    /// Connects, and sends this.
    Ask(&'static str),
    /// Sends this on a connection.
    Send(usize, &'static str),
    /// Reads just this on a connection.
    Expect(usize, &'static str),
    /// Reads this on a connection, which then ends.
    ExpectLast(usize, &'static str),
    /// Waits until so many calls have begun.
    WaitBegun(u64),
    /// Has the master make a round of offers.
    Allocate,
    /// Has the master hang up stream S1-1.
    HangUp,
    StopMaster,
    /// Finishes the office.
    Finish,
}

/// Subscribes, and then the office is finished.
pub const SUBSCRIBES: &[Move] = &[
    Move::Ask(SUBSCRIBE),
    Move::Expect(0, STREAM_HEAD),
    Move::Expect(0, SUBSCRIBED),
    Move::Finish,
    Move::ExpectLast(0, LAST_CHUNK),
];

/// Subscribes, and then the master stops.
pub const LOSES_MASTER: &[Move] = &[
    Move::Ask(SUBSCRIBE),
    Move::Expect(0, STREAM_HEAD),
    Move::Expect(0, SUBSCRIBED),
    Move::StopMaster,
    Move::ExpectLast(0, LAST_CHUNK),
];

/// In the last run: the master stops, and a SUBSCRIBE is refused.
pub const HAS_NO_MASTER: &[Move] = &[
    Move::StopMaster,
    Move::Ask(SUBSCRIBE),
    Move::ExpectLast(0, MASTER_DOWN),
];

/// Launches a task on one connection while it makes another call on a second;
/// then its stream is hung up.
pub const OVERLAPS: &[Move] = &[
    Move::Ask(SUBSCRIBE),
    Move::Expect(0, STREAM_HEAD),
    Move::Expect(0, SUBSCRIBED),
    Move::Allocate,
    Move::Expect(0, OFFERS),
    Move::Ask(ACCEPT),
    Move::WaitBegun(2),
    Move::Ask(REVIVE),
    Move::Expect(2, ACCEPTED),
    Move::Expect(1, ACCEPTED),
    Move::Send(1, RECONCILE),
    Move::Expect(1, ACCEPTED),
    Move::Expect(0, STAGING),
    Move::HangUp,
    Move::ExpectLast(0, LAST_CHUNK),
];
