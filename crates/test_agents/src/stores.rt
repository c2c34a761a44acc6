//! A cabinet over a keeper's store in memory.

use desk_agents::{Cabinet, Record};
use std::alloc::{AllocError, Global};
use test_store::{Calls, Contents, NO_STOP, load_at, nothing, save_at};
use values::Plain;

/// Where a store stops.
#[derive(Clone, Copy)]
pub struct StopAt {
    /// How many saves succeed before the one in which it may stop.
    pub saves: usize,
    /// How many calls each of its files answers in that one.
    pub calls: Calls,
    /// Whether a stop leaves what was synced alone.
    pub is_lossy: bool,
}

/// A keeper's store over two files in memory, which are opened anew for each call.
/// The files stop in one save.
#[derive(Drop)]
pub struct MemoryStore {
    contents: Contents,
    stop: StopAt,
    /// The record whose save stopped.
    lost: Option<Record>,
    /// What became of each save, by the letter of the step that is due then: C for a Commit, where
    /// it was kept; where it stopped, A or B for a stop of the agent after or before it, by whether
    /// what is found when the store is opened again is the record of that save.
    due: Vec<u8>,
}

impl MemoryStore {
    pub fn new(alloc: Global, stop: StopAt) -> MemoryStore {
        MemoryStore {
            contents: nothing(alloc),
            stop,
            lost: None,
            due: Vec::new(alloc),
        }
    }

    /// How many calls the files answer in the next save.
    fn calls(&self) -> Calls {
        if self.due.len() == self.stop.saves {
            self.stop.calls
        } else {
            NO_STOP
        }
    }

    fn note_kept(&mut self) -> Result<(), AllocError> {
        self.due.push(b'C')?;
        Ok(())
    }

    /// The save of a record stopped.
    fn note_lost(&mut self, record: &Record) -> Result<(), AllocError> {
        self.lost = Some(record.copy()?);
        Err(AllocError)
    }

    /// The letters of the steps that were due.
    pub fn into_due(self) -> Vec<u8> {
        let MemoryStore {
            contents: _,
            stop: _,
            lost: _,
            due,
        } = self;
        due
    }
}

/// Whether what is found is the record that was to be kept.
fn is_lost(found: &Option<Record>, lost: &Option<Record>) -> bool {
    match (found, lost) {
        (Some(found), Some(lost)) => found.is_same(lost),
        _ => false,
    }
}

impl Cabinet for MemoryStore {
    ghost use Rattle.std.specs.Prelude.{⊤};

    type Fault = AllocError;

    ghost keeps = { λ _ _. ⊤ };

    fn save(&mut self, alloc: Global, durable: &Record) -> Result<(), AllocError> {
        let calls = self.calls();
        let visit = save_at(alloc, &self.contents, calls, self.stop.is_lossy, durable);
        let Some((is_saved, left)) = visit else {
            return Err(AllocError);
        };
        self.contents = left;
        if is_saved {
            self.note_kept()
        } else {
            self.note_lost(durable)
        }
    }

    fn reopen(&mut self, alloc: Global) -> Result<Option<Record>, AllocError> {
        let found = load_at(alloc, &self.contents)?;
        if self.lost.is_none() {
            return Ok(found);
        }
        let letter = if is_lost(&found, &self.lost) {
            b'A'
        } else {
            b'B'
        };
        self.due.push(letter)?;
        Ok(found)
    }
}
