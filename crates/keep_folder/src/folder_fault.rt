//! Why a folder isn't opened.

ghost use Rattle.std.specs.Prelude.{◌≡◌};
ghost use Rattle.keep_folder.specs.declared.folder_fault.FolderFault.TheVariants.{OutOfMemory};

use keep_store::KeepFault;
use sqlite::{Error, ErrorCode};
use std::alloc::{AllocError, AllocFailed};
use std::fmt;

/// What is known of why a store failed, beside its fault.
#[derive(Clone, Copy, Debug, Drop, PartialEq, Eq)]
pub enum StoreHint {
    /// Another process has the store open: a server that uses the folder, or another program.
    InUse,
    /// There is nothing at the folder's path.
    NoSuchFolder,
    /// What is at the folder's path is no folder.
    NoFolder,
    /// Nothing.
    Nothing,
}

impl StoreHint {
    /// What a fault itself tells.
    pub(crate) fn of(fault: &KeepFault) -> StoreHint {
        match fault {
            KeepFault::Store(Error::SqliteFailure(ErrorCode::DatabaseBusy)) => StoreHint::InUse,
            _ => StoreHint::Nothing,
        }
    }

    /// The line that is printed behind the fault.
    fn as_text(self) -> &'static str {
        match self {
            StoreHint::InUse => "\nanother server uses the folder, or another program this store",
            StoreHint::NoSuchFolder => "\nthe folder isn't there, and has to be made first",
            StoreHint::NoFolder => "\nwhat is there in the folder's place is no folder",
            StoreHint::Nothing => "",
        }
    }
}

/// Why a folder has no cluster.
#[derive(Debug, Drop)]
pub enum FolderFault {
    /// The store at this path failed, or keeps what it shouldn't: `K1 Store`, `K2 Damaged`,
    /// `K3 RunsSpent` or `K4 OutOfMemory`.
    Store {
        path: String,
        fault: KeepFault,
        hint: StoreHint,
    },
    /// `Z1 TotalDiffers`: this agent's record has more than the total that is configured.
    TotalDiffers {
        agent: String,
    },
    /// `K2 Damaged`: each record is one that an agent can have, but together they are none of a
    /// cluster's: one is of another agent or of a later run, or two have the same task.
    NoCluster,
    /// `K4 OutOfMemory`.
    OutOfMemory,
}

impl From<AllocError> for FolderFault {
    ghost from_gives = { λ _ fault. fault ≡ OutOfMemory };

    fn from(_e: AllocError) -> FolderFault {
        FolderFault::OutOfMemory
    }
}

impl<T: Drop> From<AllocFailed<T>> for FolderFault {
    ghost from_gives = { λ _ fault. fault ≡ OutOfMemory };

    fn from(_e: AllocFailed<T>) -> FolderFault {
        FolderFault::OutOfMemory
    }
}

impl From<fmt::Error> for FolderFault {
    ghost from_gives = { λ _ fault. fault ≡ OutOfMemory };

    fn from(_e: fmt::Error) -> FolderFault {
        FolderFault::OutOfMemory
    }
}

impl fmt::Display for FolderFault {
    fn fmt<W: fmt::Write>(&self, f: &mut fmt::Formatter<W>) -> fmt::Result {
        match self {
            FolderFault::Store { path, fault, hint } => {
                let path = path.as_str();
                let fault = *fault;
                let behind = hint.as_text();
                write!(f, "{fault}: {path}{behind}")
            }
            FolderFault::TotalDiffers { agent } => {
                let agent = agent.as_str();
                write!(
                    f,
                    "Z1 TotalDiffers: {agent}'s record has more than is configured"
                )
            }
            FolderFault::NoCluster => f.write_str("K2 Damaged: the records are of no one cluster"),
            FolderFault::OutOfMemory => f.write_str("K4 OutOfMemory"),
        }
    }
}
