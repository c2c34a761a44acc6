//! A gate that holds a call until the next is answered.

use http_door::Gate;
use std::sync::atomic::{AtomicU64, Ordering};
use std::thread;
use std::time::{Clock, Duration};

/// So many turns, of 100 microseconds each, are waited at most.
const TURNS: u32 = 1_000_000;

/// Holds the call of a number, from 0, until the next is answered, for so many turns at most.
#[derive(Drop)]
pub struct Overlap<'a, R: Clock> {
    rt: &'a R,
    held: u64,
    begun: AtomicU64,
    answered: AtomicU64,
    overlapped: AtomicU64,
}

impl<'a, R: Clock> Overlap<'a, R> {
    pub fn new(rt: &'a R, held: u64) -> Overlap<'a, R> {
        Overlap {
            rt,
            held,
            begun: AtomicU64::new(0),
            answered: AtomicU64::new(0),
            overlapped: AtomicU64::new(0),
        }
    }

    /// Whether the call was held, and released by the answer to the next.
    pub fn has_overlapped(&self) -> bool {
        self.overlapped.load(Ordering::SeqCst) == 1
    }

    /// Waits until so many calls have begun, for so many turns at most.
    pub fn wait_begun(&self, count: u64) -> bool {
        for _ in 0..TURNS {
            if self.begun.load(Ordering::SeqCst) >= count {
                return true;
            }
            thread::sleep(self.rt, Duration::from_micros(100));
        }
        false
    }

    fn hold(&self) {
        for _ in 0..TURNS {
            if self.answered.load(Ordering::SeqCst) == 1 {
                self.overlapped.store(1, Ordering::SeqCst);
                return;
            }
            thread::sleep(self.rt, Duration::from_micros(100));
        }
    }
}

impl<'a, R: Clock> Gate for Overlap<'a, R> {
    fn before(&self) -> u64 {
        let n = self.begun.fetch_add(1, Ordering::SeqCst);
        if n == self.held {
            self.hold();
        }
        n
    }

    fn after(&self, n: u64) {
        if n == self.held.saturating_add(1) {
            self.answered.store(1, Ordering::SeqCst);
        }
    }
}
