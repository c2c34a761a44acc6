//! Entries of a history, each of which is one value.

ghost use Rattle.std.specs.Prelude.{◌≡◌};

use messages::Entry;
use std::marker::Model;
use std::ops::Deref;
use values::{Permanent, Place};

/// An entry of a history. It is one value, for as long as the program runs: its owners share it.
/// (The type has no lifetime of its own, so that threads may pass it on.)
pub struct KeptEntry {
    entry: Permanent<'static, Entry>,
}

// By hand, so that the proof of who drops one visits none of its parts.
impl Drop for KeptEntry {
    fn drop(self) {
        let KeptEntry { entry: _ } = self;
    }
}

impl Model for KeptEntry {
    ghost use Rattle.messages.specs.declared.entries.entry.Entry.{Entry};

    ghost Value = { Entry };

    ghost view = { λ k. k.entry };
}

impl KeptEntry {
    /// Writes an entry into its place. It takes no memory.
    pub fn new(place: Place<Entry>, entry: Entry) -> KeptEntry
        ensures { result ≡ entry }
    {
        KeptEntry {
            entry: place.fill(entry),
        }
    }

    pub fn get(&self) -> &Entry
        ensures { result.now ≡ self.now }
    {
        self.entry.get()
    }

    /// One more owner. It takes no memory.
    pub fn share(&self) -> KeptEntry
        ensures { result ≡ self.now }
    {
        KeptEntry {
            entry: self.entry.share(),
        }
    }
}

impl Deref for KeptEntry {
    type Target = Entry;

    ghost deref_gives = { λ kept entry. entry ≡ kept };

    fn deref(&self) -> &Entry
        ensures { result.now ≡ self.now }
    {
        self.get()
    }
}
