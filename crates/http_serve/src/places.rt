//! How many streams are open, and how many large bodies are read, at once.

use std::sync::atomic::{AtomicU64, Ordering};

/// So many places. The connections of a server share them. Where several take the last one at the
/// same moment, none of them may get it.
#[derive(Drop)]
pub struct Places {
    most: u64,
    taken: AtomicU64,
}

impl Places {
    /// So many places, none of which is taken.
    pub fn new(most: u64) -> Places {
        Places {
            most,
            taken: AtomicU64::new(0),
        }
    }

    /// Takes a place, if one is left. It is given back where it is dropped.
    pub(crate) fn take(&self) -> Option<Place<'_>> {
        if self.taken.fetch_add(1, Ordering::SeqCst) < self.most {
            return Some(Place { places: self });
        }
        self.give_back();
        None
    }

    /// Gives a place back that was taken.
    fn give_back(&self) {
        self.taken.fetch_sub(1, Ordering::SeqCst);
    }
}

/// A place that is taken. It is given back where this is dropped.
pub(crate) struct Place<'a> {
    places: &'a Places,
}

impl Drop for Place<'_> {
    fn drop(self) {
        self.places.give_back();
        let Place { places: _ } = self;
    }
}
