//! How a ticker reads the time.

ghost use Rattle.std.specs.Prelude.{◌≡◌, ◌-◌, ℕ, Option};
ghost use Rattle.std.specs.Duration.{as_nanos};
ghost use Rattle.std.specs.Time.{instant_nanos};
ghost use Rattle.desk_agents.specs.Moments.{whole_seconds};

use std::time::{Clock, Duration, Instant};

/// Counts whole seconds.
pub trait Seconds {
    /// The one was read so, which left the other: the whole seconds since its start,
    /// or none where they couldn't be read.
    ghost reads: { Self → Option ℕ → Self → Type 0 };

    /// The whole seconds since its start, 2^32 - 1 at most; None where they can't be read.
    fn passed(&mut self) -> Option<u32>
        ensures { reads self.old result self.new };
}

/// The whole seconds of a time, 2^32 - 1 at most.
fn whole_seconds(time: Duration) -> u32
    ensures { result ≡ whole_seconds (as_nanos time) }
{
    time.as_secs().min(u32::MAX as u64) as u32
}

/// The whole seconds from one instant to another.
fn seconds_between(start: Instant, now: Instant) -> u32
    ensures { result ≡ whole_seconds (instant_nanos now - instant_nanos start) }
{
    whole_seconds(now.duration_since(start))
}

/// Counts the seconds from its making on.
#[derive(Drop)]
pub struct Stopwatch<'a, R: Clock> {
    clock: &'a R,
    /// None where the clock couldn't be read then: it can't be read later either.
    start: Option<Instant>,
}

impl<'a, R: Clock> Stopwatch<'a, R> {
    pub fn new(clock: &'a R) -> Stopwatch<'a, R> {
        Stopwatch {
            clock,
            start: Instant::now(clock).ok(),
        }
    }
}

impl<'a, R: Clock> Seconds for Stopwatch<'a, R> {
    ghost use Rattle.desk_agents.specs.Moments.{IsSince};

    ghost reads = { λ old seconds _. IsSince old.start seconds };

    fn passed(&mut self) -> Option<u32> {
        let start = self.start?;
        match Instant::now(self.clock) {
            Ok(now) => Some(seconds_between(start, now)),
            Err(_) => None,
        }
    }
}
