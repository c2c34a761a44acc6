//! Where an agent's record is kept.

ghost use Rattle.std.specs.Prelude.{Option, Some, IfOk, OnOk};
ghost use Rattle.messages.specs.declared.record.RecordParts.{RecordParts};

use crate::record::Record;
use std::alloc::Global;

/// Keeps the record of one agent.
pub trait Cabinet {
    /// Why a call fails.
    type Fault: Drop;

    /// It keeps this record, or none.
    ghost keeps: { Self → Option RecordParts → Type 0 };

    /// Keeps a record in place of the one before. After a fault it may keep either of the two:
    /// then it is to be opened again.
    fn save(&mut self, alloc: Global, durable: &Record) -> Result<(), Self::Fault>
        ensures { OnOk result (keeps self.new (Some durable.now)) };

    /// Opens it again, and returns the record that it keeps; None where none was ever kept.
    fn reopen(&mut self, alloc: Global) -> Result<Option<Record>, Self::Fault>
        ensures { IfOk result (keeps self.new) };
}
