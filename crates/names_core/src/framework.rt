//! The ids of frameworks.

ghost use Rattle.std.specs.Prelude.{◌≡◌, ◌<◌, IfOk, IfErr, string_bytes};
ghost use Rattle.std.specs.Result.{result_ok};
ghost use Rattle.names_core.specs.Ids.{InRange, id_text, id_of};

use crate::fault::NameFault;
use crate::numbered::{numbers_of, text_of};
use std::alloc::Global;
use std::marker::Model;
use values::Plain;

/// A framework, counted from 1 in each run of the master.
#[derive(Clone, Copy, Debug, Drop, PartialEq, Eq, PartialOrd, Ord, Hash)]
pub struct FrameworkId {
    run: u16,
    n: u32,
}

impl Model for FrameworkId {
    ghost use Rattle.std.specs.Prelude.{◌<◌};
    ghost use Rattle.names_core.specs.Ids.{Numbered};

    ghost Value = { Numbered };

    ghost view = { λ i. record { run = i.run; n = i.n } };

    ghost invariant = { λ i. (0 < i.run) × (0 < i.n) };

    ghost inverse = { λ i. record { run = i.run; n = i.n } };
}

impl Plain for FrameworkId {
    ghost use Rattle.std.proofs.Common.{rules};

    ghost cloned = { Prim.search rules };

    ghost decided = { Prim.search rules };
}

impl FrameworkId {
    pub fn new(run: u16, n: u32) -> FrameworkId
        requires { (0 < run) × (0 < n) }
        ensures { result ≡ record { run = run; n = n } }
    {
        FrameworkId { run, n }
    }

    /// The run of the master that issued the id.
    pub fn run(&self) -> u16
        ensures { result ≡ self.now.run }
    {
        self.run
    }

    /// Its number in that run.
    pub fn number(&self) -> u32
        ensures { result ≡ self.now.n }
    {
        self.n
    }

    /// The id that a text is: `F<run>-<number>`, both in decimal without leading zeros.
    pub fn from_text(text: &str) -> Result<FrameworkId, NameFault>
        ensures ok { result_ok result ≡ id_of 70 text.now }
        ensures err { IfErr result (λ e. e ≡ NameFault.BadId) }
    {
        match numbers_of('F', text) {
            Some((run, n)) => Ok(FrameworkId { run, n }),
            None => Err(NameFault::BadId),
        }
    }

    pub fn to_text(&self, alloc: Global) -> Result<String, NameFault>
        ensures text { IfOk result (λ t. string_bytes t ≡ id_text 70 self.now) }
        ensures range { InRange self.now }
        ensures err { IfErr result (λ e. e ≡ NameFault.OutOfMemory) }
    {
        text_of(alloc, 'F', self.run, self.n)
    }
}
