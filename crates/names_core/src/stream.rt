//! The ids of event streams.

ghost use Rattle.std.specs.Prelude.{◌≡◌, ◌<◌, IfOk, IfErr, string_bytes};
ghost use Rattle.std.specs.Result.{result_ok};
ghost use Rattle.names_core.specs.Ids.{InRange, id_text, id_of};

use crate::fault::NameFault;
use crate::numbered::{numbers_of, text_of};
use std::alloc::Global;
use std::marker::Model;
use values::Plain;

/// A stream of events to a framework, counted from 1 in each run of the master.
/// It is the value of the header `Mesos-Stream-Id` of the scheduler HTTP API.
#[derive(Clone, Copy, Debug, Drop, PartialEq, Eq, PartialOrd, Ord, Hash)]
pub struct StreamId {
    run: u16,
    n: u32,
}

impl Model for StreamId {
    ghost use Rattle.std.specs.Prelude.{◌<◌};
    ghost use Rattle.names_core.specs.Ids.{Numbered};

    ghost Value = { Numbered };

    ghost view = { λ i. record { run = i.run; n = i.n } };

    ghost invariant = { λ i. (0 < i.run) × (0 < i.n) };

    ghost inverse = { λ i. record { run = i.run; n = i.n } };
}

impl Plain for StreamId {
    ghost use Rattle.std.proofs.Common.{rules};

    ghost cloned = { Prim.search rules };

    ghost decided = { Prim.search rules };
}

impl StreamId {
    pub fn new(run: u16, n: u32) -> StreamId
        requires { (0 < run) × (0 < n) }
        ensures { result ≡ record { run = run; n = n } }
    {
        StreamId { run, n }
    }

    /// The run of the master that issued the id.
    pub fn run(&self) -> u16
        ensures { result ≡ self.now.run }
    {
        self.run
    }

    /// Its number in that run.
    pub fn number(&self) -> u32
        ensures { result ≡ self.now.n }
    {
        self.n
    }

    /// The id that a text is: `S<run>-<number>`, both in decimal without leading zeros.
    pub fn from_text(text: &str) -> Result<StreamId, NameFault>
        ensures ok { result_ok result ≡ id_of 83 text.now }
        ensures err { IfErr result (λ e. e ≡ NameFault.BadId) }
    {
        match numbers_of('S', text) {
            Some((run, n)) => Ok(StreamId { run, n }),
            None => Err(NameFault::BadId),
        }
    }

    pub fn to_text(&self, alloc: Global) -> Result<String, NameFault>
        ensures text { IfOk result (λ t. string_bytes t ≡ id_text 83 self.now) }
        ensures range { InRange self.now }
        ensures err { IfErr result (λ e. e ≡ NameFault.OutOfMemory) }
    {
        text_of(alloc, 'S', self.run, self.n)
    }
}
