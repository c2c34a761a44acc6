//! A cabinet that tells on standard error when its saves or its openings begin to fail, and when
//! that is over.

ghost use Rattle.sqlite.specs.State.{HasCleanDisk};
ghost use Rattle.sqlite.specs.Files.{file_state};
ghost use Rattle.keep_folder.specs.Given.{GivesRecord};
ghost use Rattle.std.specs.Prelude.{◌≡◌, true, false, not, None, Some, IsSome, IsSomeAnd, IfErr, IfOk, OnErr, OnOk};

use crate::cabinet::FileCabinet;
use agent_core::{Cabinet, Record};
use keep_store::KeepFault;
use names_core::AgentName;
use std::alloc::Global;
use std::mem;

/// Whether it was told that a record can't be saved, and not yet that it is saved again.
#[derive(Clone, Copy, Drop)]
struct Telling {
    is_begun: bool,
}

impl Telling {
    /// Whether it is to be told now that a record can't be saved: once, until it is saved again.
    fn begins(&mut self) -> bool
        ensures once { result ≡ not self.old.is_begun }
        ensures begun { self.new.is_begun ≡ true }
    {
        !mem::replace(&mut self.is_begun, true)
    }

    /// Whether it is to be told now that a record is saved again: once, and only where it was told
    /// that it can't be.
    fn is_over(&mut self) -> bool
        ensures told { result ≡ self.old.is_begun }
        ensures over { self.new.is_begun ≡ false }
    {
        mem::replace(&mut self.is_begun, false)
    }
}

/// A cabinet, and the agent whose record it keeps. Once a save or an opening failed no save is tried
/// until the cabinet was opened again. That the record can't be saved is told on standard error once
/// the cabinet was opened again, so that the next save is tried: once, until one succeeds, and then
/// that is told. Where the cabinet can't be opened again it is told too if that is tried again, and
/// else nothing is.
pub struct TellingCabinet<'a> {
    agent: &'a AgentName,
    cabinet: FileCabinet<'a>,
    /// Whether an opening that failed is tried again.
    is_retried: bool,
    /// Why the last save or opening failed; None where a save succeeded or the cabinet was opened
    /// again since.
    failed: Option<KeepFault>,
    telling: Telling,
}

// By hand: who drops one calls this, and the proof visits none of its parts.
impl<'a> Drop for TellingCabinet<'a> {
    fn drop(self) {
        let TellingCabinet {
            agent: _,
            cabinet: _,
            is_retried: _,
            failed: _,
            telling: _,
        } = self;
    }
}

impl<'a> TellingCabinet<'a> {
    /// A cabinet of which nothing was told yet, whose openings that fail are tried again or aren't.
    pub fn new(
        agent: &'a AgentName,
        cabinet: FileCabinet<'a>,
        is_retried: bool,
    ) -> TellingCabinet<'a>
        ensures cabinet { result.cabinet ≡ cabinet.entry }
        ensures retried { result.is_retried ≡ is_retried }
        ensures failed { result.failed ≡ None }
        ensures untold { result.telling.is_begun ≡ false }
    {
        TellingCabinet {
            agent,
            cabinet,
            is_retried,
            failed: None,
            telling: Telling { is_begun: false },
        }
    }

    /// Tells why the last save or opening failed, if it did, and that it is tried again, unless that
    /// was told.
    fn tell_failed(&mut self)
        ensures begun { IsSome self.old.failed → self.new.telling.is_begun ≡ true }
        ensures none { self.old.failed ≡ None → self.new.telling ≡ self.old.telling }
        ensures cabinet { self.new.cabinet ≡ self.old.cabinet }
        ensures failed { self.new.failed ≡ self.old.failed }
    {
        let Some(fault) = self.failed else {
            return;
        };
        if self.telling.begins() {
            let agent = self.agent.as_text();
            let _ = eprintln!(self.cabinet.runtime();
                "agent {agent} can't be saved, and is tried again each second: {fault}"
            );
        }
    }

    /// Notes why the cabinet can't be opened again, and tells it where that is tried again.
    fn note_closed(&mut self, fault: KeepFault)
        ensures begun { self.old.is_retried ≡ true → self.new.telling.is_begun ≡ true }
        ensures untold { self.old.is_retried ≡ false → self.new.telling ≡ self.old.telling }
        ensures cabinet { self.new.cabinet ≡ self.old.cabinet }
        ensures failed { self.new.failed ≡ Some fault }
    {
        self.failed = Some(fault);
        if self.is_retried {
            self.tell_failed();
        }
    }

    /// Tells that a save succeeded again, where it was told that they fail.
    fn tell_saved(&mut self)
        ensures over { self.new.telling.is_begun ≡ false }
        ensures cabinet { self.new.cabinet ≡ self.old.cabinet }
        ensures failed { self.new.failed ≡ self.old.failed }
    {
        if self.telling.is_over() {
            let agent = self.agent.as_text();
            let _ = eprintln!(self.cabinet.runtime(); "agent {agent} is saved again");
        }
    }
}

impl<'a> Cabinet for TellingCabinet<'a> {
    ghost use Rattle.std.specs.Prelude.{IsSomeAnd};
    ghost use Rattle.sqlite.specs.State.{HasCleanDisk};
    ghost use Rattle.sqlite.specs.Files.{file_state};
    ghost use Rattle.keep_folder.specs.Given.{GivesRecord};

    type Fault = KeepFault;

    // Its store is open, and keeps this, unless the disk returned what was never written.
    ghost keeps = { λ it kept. IsSomeAnd it.cabinet.store.store
        (λ keeper. HasCleanDisk (file_state keeper) → GivesRecord (file_state keeper) kept) };

    fn save(&mut self, alloc: Global, durable: &Record) -> Result<(), KeepFault>
        ensures kept { OnOk result (IsSomeAnd self.new.cabinet.store.store
            (λ keeper. HasCleanDisk (file_state keeper)
            → GivesRecord (file_state keeper) (Some durable.now))) }
        ensures untried { OnOk result (self.old.failed ≡ None) }
        ensures failed { IfErr result (λ fault. self.new.failed ≡ Some fault) }
        ensures over { OnOk result (self.new.telling.is_begun ≡ false) }
        ensures untold { OnErr result (self.new.telling ≡ self.old.telling) }
    {
        if let Some(fault) = self.failed {
            return Err(fault);
        }
        match self.cabinet.save(alloc, durable) {
            Ok(()) => {
                self.tell_saved();
                Ok(())
            }
            Err(fault) => {
                self.failed = Some(fault);
                Err(fault)
            }
        }
    }

    fn reopen(&mut self, alloc: Global) -> Result<Option<Record>, KeepFault>
        ensures found { IfOk result (λ found. IsSomeAnd self.new.cabinet.store.store
            (λ keeper. HasCleanDisk (file_state keeper)
            → GivesRecord (file_state keeper) found)) }
        ensures opened { OnOk result (self.new.failed ≡ None) }
        ensures closed { IfErr result (λ fault. self.new.failed ≡ Some fault) }
        ensures told { OnOk result
            (IsSome self.old.failed → self.new.telling.is_begun ≡ true) }
        ensures begun { OnErr result
            (self.old.is_retried ≡ true → self.new.telling.is_begun ≡ true) }
        ensures untold { OnErr result
            (self.old.is_retried ≡ false → self.new.telling ≡ self.old.telling) }
    {
        match self.cabinet.reopen(alloc) {
            Ok(found) => {
                self.tell_failed();
                self.failed = None;
                Ok(found)
            }
            Err(fault) => {
                self.note_closed(fault);
                Err(fault)
            }
        }
    }
}
