//! Whether a server ends.

use std::sync::atomic::{AtomicBool, Ordering};

/// Whether a server ends before its connections do. Its threads share it: a connection that waits
/// for a client's next byte is seen to be at its end within a second.
#[derive(Drop)]
pub struct Ending {
    has_begun: AtomicBool,
}

impl Ending {
    pub fn new() -> Ending {
        Ending {
            has_begun: AtomicBool::new(false),
        }
    }

    /// Whether the server ends.
    pub fn has_begun(&self) -> bool {
        self.has_begun.load(Ordering::SeqCst)
    }

    /// From now on the server ends. It returns whether this is news.
    pub fn begin(&self) -> bool {
        !self.has_begun.swap(true, Ordering::SeqCst)
    }
}
