//! What a folder keeps of a cluster: the record of each agent and the number of the master's last
//! run, each in a SQLite store of its own.
#![tactic(auto)]

mod cabinet;
mod files;
mod folder;
mod folder_fault;
mod stores;
mod telling;

pub use cabinet::{FileCabinet, FolderLock, RecordFile};
pub use files::{fold, into_files, over_files};
pub use folder::{Folder, open_folder};
pub use folder_fault::{FolderFault, StoreHint};
pub use telling::TellingCabinet;
