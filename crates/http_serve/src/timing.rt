//! How long something takes.

use std::time::{Clock, Instant};

/// Whether so many seconds have passed since a moment. Without a moment, and where the clock can't
/// be read, they haven't.
pub(crate) fn have_passed<R: Clock>(rt: &R, since: Option<Instant>, seconds: u64) -> bool {
    match since {
        Some(since) => match since.elapsed(rt) {
            Ok(elapsed) => elapsed.as_secs() >= seconds,
            Err(_) => false,
        },
        None => false,
    }
}
