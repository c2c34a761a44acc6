//! Cabinets in memory.

use desk_agents::{Cabinet, Record};
use std::alloc::{AllocError, Global};
use std::hint::spin_loop;
use std::sync::atomic::{AtomicBool, Ordering};
use values::Plain;

/// Which record a cabinet keeps after a save that failed.
#[derive(Clone, Copy, Drop, PartialEq, Eq)]
pub enum Kept {
    /// The one that was to be saved.
    After,
    /// The one before, of which there is none yet.
    Before,
    /// One of another session.
    Neither,
}

/// A cabinet whose first save may fail.
#[derive(Drop)]
pub struct Shelf {
    /// How many saves were requested.
    pub saves: u32,
    /// What the first save leaves where it fails; None where it succeeds.
    keeps: Option<Kept>,
    /// What that save was to keep.
    lost: Option<Record>,
}

impl Shelf {
    pub fn new(keeps: Option<Kept>) -> Shelf {
        Shelf {
            saves: 0,
            keeps,
            lost: None,
        }
    }
}

/// The record, but of session 77.
fn of_session_77(alloc: Global, record: Record) -> Result<Option<Record>, AllocError> {
    let mut parts = record.into_parts();
    parts.session = 77;
    Record::of(alloc, parts)
}

impl Cabinet for Shelf {
    ghost use Rattle.std.specs.Prelude.{⊤};

    type Fault = AllocError;

    ghost keeps = { λ _ _. ⊤ };

    fn save(&mut self, _alloc: Global, durable: &Record) -> Result<(), AllocError> {
        self.saves = self.saves.saturating_add(1);
        if self.saves > 1 || self.keeps.is_none() {
            return Ok(());
        }
        self.lost = Some(durable.copy()?);
        Err(AllocError)
    }

    fn reopen(&mut self, alloc: Global) -> Result<Option<Record>, AllocError> {
        let Some(lost) = self.lost.take() else {
            return Ok(None);
        };
        match self.keeps {
            Some(Kept::After) => Ok(Some(lost)),
            Some(Kept::Neither) => of_session_77(alloc, lost),
            _ => Ok(None),
        }
    }
}

/// A cabinet one of whose saves fails, and that can't be opened again then for a while. It keeps the
/// record that was saved last.
#[derive(Drop)]
pub struct Jammed {
    /// How many saves succeed before the one that fails; None once that failed.
    passes: Option<u32>,
    /// How often it can't be opened.
    jams: u32,
    kept: Option<Record>,
}

impl Jammed {
    pub fn new(passes: u32, jams: u32) -> Jammed {
        Jammed {
            passes: Some(passes),
            jams,
            kept: None,
        }
    }
}

impl Cabinet for Jammed {
    ghost use Rattle.std.specs.Prelude.{⊤};

    type Fault = AllocError;

    ghost keeps = { λ _ _. ⊤ };

    fn save(&mut self, _alloc: Global, durable: &Record) -> Result<(), AllocError> {
        self.passes = match self.passes {
            Some(0) => {
                self.passes = None;
                return Err(AllocError);
            }
            Some(passes) => Some(passes - 1),
            None => None,
        };
        self.kept = Some(durable.copy()?);
        Ok(())
    }

    fn reopen(&mut self, _alloc: Global) -> Result<Option<Record>, AllocError> {
        if self.passes.is_none() && self.jams > 0 {
            self.jams -= 1;
            return Err(AllocError);
        }
        match &self.kept {
            Some(kept) => Ok(Some(kept.copy()?)),
            None => Ok(None),
        }
    }
}

/// Whether the save of each of two cabinets is open.
#[derive(Drop)]
pub struct Flags {
    first: AtomicBool,
    second: AtomicBool,
}

impl Flags {
    pub fn new() -> Flags {
        Flags {
            first: AtomicBool::new(false),
            second: AtomicBool::new(false),
        }
    }

    /// Notes the save of the second cabinet as open: that of the first waits for it.
    pub fn open_second(&self) {
        self.second.store(true, Ordering::SeqCst);
    }
}

/// Some 100 microseconds.
fn turn() {
    for _ in 0..4_000u32 {
        spin_loop();
    }
}

/// Waits for a flag, for at most 1,000,000 turns of some 100 microseconds.
fn wait_for(flag: &AtomicBool) -> bool {
    for _ in 0..1_000_000u32 {
        if flag.load(Ordering::SeqCst) {
            return true;
        }
        turn();
    }
    false
}

/// A cabinet that holds its saves until the other's is open. It keeps no record when it is first
/// opened, and can't be opened once a save failed.
#[derive(Drop)]
pub struct Held<'a> {
    flags: &'a Flags,
    is_first: bool,
    /// How many saves it doesn't hold, before all others.
    passes: u32,
    /// Whether a save fails that was held.
    fails: bool,
    /// Whether one failed.
    has_failed: bool,
    /// Whether the last save that it held was open beside the other's.
    pub has_overlapped: bool,
}

impl<'a> Held<'a> {
    /// It holds each save, which then fails.
    pub fn new(flags: &'a Flags, is_first: bool) -> Held<'a> {
        Held {
            flags,
            is_first,
            passes: 0,
            fails: true,
            has_failed: false,
            has_overlapped: false,
        }
    }

    /// The first of the two, which holds no save before so many. Each succeeds.
    pub fn behind(flags: &'a Flags, passes: u32) -> Held<'a> {
        Held {
            flags,
            is_first: true,
            passes,
            fails: false,
            has_failed: false,
            has_overlapped: false,
        }
    }
}

impl<'a> Cabinet for Held<'a> {
    ghost use Rattle.std.specs.Prelude.{⊤};

    type Fault = AllocError;

    ghost keeps = { λ _ _. ⊤ };

    fn save(&mut self, _alloc: Global, _durable: &Record) -> Result<(), AllocError> {
        if self.passes > 0 {
            self.passes -= 1;
            return Ok(());
        }
        let Flags { first, second } = self.flags;
        let (mine, other) = if self.is_first {
            (first, second)
        } else {
            (second, first)
        };
        mine.store(true, Ordering::SeqCst);
        self.has_overlapped = wait_for(other);
        if self.fails {
            self.has_failed = true;
            return Err(AllocError);
        }
        Ok(())
    }

    fn reopen(&mut self, _alloc: Global) -> Result<Option<Record>, AllocError> {
        if self.has_failed {
            return Err(AllocError);
        }
        Ok(None)
    }
}
