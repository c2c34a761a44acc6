//! Why a store doesn't answer.

ghost use Rattle.std.specs.Prelude.{◌≡◌};
ghost use Rattle.sqlite.specs.declared.error.Error.TheVariants.{SqliteFailure};
ghost use Rattle.sqlite.specs.declared.error.ErrorCode.TheVariants.{DatabaseCorrupt};
ghost use Rattle.keep_tables.specs.Tables.{fault_for};
ghost use Rattle.keep_tables.specs.declared.rows.fault.KeepFault.TheVariants as faults;

use sqlite::{Error, ErrorCode};
use std::alloc::{AllocError, AllocFailed};

#[derive(Clone, Copy, Debug, Drop, PartialEq, Eq, thiserror::Error)]
pub enum KeepFault {
    /// The store failed with this error, which isn't want of memory.
    #[error("K1 Store {0}")]
    Store(sqlite::Error),
    /// What is kept is no record, or the tables are others.
    #[error("K2 Damaged")]
    Damaged,
    /// Run 65,535 was assigned, and there is none after it.
    #[error("K3 RunsSpent")]
    RunsSpent,
    /// Memory ran out, the store's or that of a text.
    #[error("K4 OutOfMemory")]
    OutOfMemory,
}

impl From<AllocError> for KeepFault {
    ghost from_gives = { λ _ e. e ≡ faults.OutOfMemory };

    fn from(_e: AllocError) -> KeepFault {
        KeepFault::OutOfMemory
    }
}

impl<T: Drop> From<AllocFailed<T>> for KeepFault {
    ghost from_gives = { λ _ e. e ≡ faults.OutOfMemory };

    fn from(_e: AllocFailed<T>) -> KeepFault {
        KeepFault::OutOfMemory
    }
}

/// The fault that an error of the store is.
pub fn fault_of(error: sqlite::Error) -> KeepFault
    ensures { result ≡ fault_for error }
{
    match error {
        sqlite::Error::SqliteFailure(ErrorCode::OutOfMemory) => KeepFault::OutOfMemory,
        other => KeepFault::Store(other),
    }
}

/// The rows aren't those that were known of.
pub fn corrupt() -> KeepFault
    ensures { result ≡ faults.Store (SqliteFailure DatabaseCorrupt) }
{
    KeepFault::Store(Error::SqliteFailure(ErrorCode::DatabaseCorrupt))
}
