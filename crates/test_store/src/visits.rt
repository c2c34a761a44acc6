//! Visits of files in memory: each opens a store over them, does one thing, and returns them.
//! What is done is written for every store, so that one function alone has one over files at hand:
//! the prover visits all laws of that type there, which takes half a minute and more.

use crate::disks::{Calls, Contents, NO_STOP, connected, contents_of, disks_of};
use agent_core::Record;
use keep_store::Keeper;
use sqlite::{Alter, Connection, FileStore, Files};
use sqlite_disk::Disk;
use std::alloc::{AllocError, Global};

/// A store over disks, which it returns.
pub(crate) trait OverDisks: Alter + Drop {
    type Disks: Drop;

    fn into_disks(self) -> Self::Disks;
}

impl<D: Disk + Drop> OverDisks for FileStore<D> {
    type Disks = Files<D>;

    fn into_disks(self) -> Files<D> {
        self.close()
    }
}

fn adopted<S: OverDisks>(conn: Connection<S>) -> Result<Keeper<S>, S::Disks> {
    match Keeper::adopt(conn) {
        Ok(keeper) => Ok(keeper),
        Err((_, conn)) => Err(conn.into_store().into_disks()),
    }
}

/// The keeper over a connection, or what is left of its disks.
pub(crate) fn opened<S: OverDisks>(
    conn: Result<Connection<S>, S::Disks>,
) -> Result<Keeper<S>, S::Disks> {
    adopted(conn?)
}

pub(crate) fn closed<S: OverDisks>(keeper: Keeper<S>) -> S::Disks {
    keeper.into_connection().into_store().into_disks()
}

/// Does something with a store over disks.
pub(crate) trait Visitor {
    /// Does it, and returns the disks.
    fn over<S: OverDisks>(
        &mut self,
        alloc: Global,
        conn: Result<Connection<S>, S::Disks>,
    ) -> S::Disks;
}

/// What a visit leaves of files. (Over one kind of disk the prover takes nearly twice as long.)
fn left_by<D: Disk + Drop, V: Visitor>(
    alloc: Global,
    disks: Files<D>,
    visitor: &mut V,
) -> Files<D> {
    visitor.over(alloc, connected(alloc, disks))
}

/// What is left of files of these contents, which stop after so many calls, after a visit and a
/// stop: all that was written, or what was synced alone. None for want of memory.
pub(crate) fn visit<V: Visitor>(
    alloc: Global,
    contents: &Contents,
    calls: Calls,
    is_lossy: bool,
    visitor: &mut V,
) -> Option<Contents> {
    let disks = disks_of(alloc, contents, calls)?;
    contents_of(alloc, left_by(alloc, disks, visitor), is_lossy)
}

/// A keeper saves a record.
#[derive(Drop)]
struct Saving<'a> {
    record: &'a Record,
    is_saved: bool,
}

impl<'a> Visitor for Saving<'a> {
    fn over<S: OverDisks>(
        &mut self,
        alloc: Global,
        conn: Result<Connection<S>, S::Disks>,
    ) -> S::Disks {
        match opened(conn) {
            Ok(mut keeper) => {
                self.is_saved = keeper.save(alloc, self.record).is_ok();
                closed(keeper)
            }
            Err(left) => left,
        }
    }
}

/// Whether a keeper over files of these contents, which stop after so many calls, saves a record,
/// and what a stop leaves of them. None for want of memory.
pub fn save_at(
    alloc: Global,
    contents: &Contents,
    calls: Calls,
    is_lossy: bool,
    record: &Record,
) -> Option<(bool, Contents)> {
    let is_saved = false;
    let mut saving = Saving { record, is_saved };
    match visit(alloc, contents, calls, is_lossy, &mut saving) {
        Some(left) => Some((saving.is_saved, left)),
        None => None,
    }
}

/// A keeper loads a record; it can't before.
#[derive(Drop)]
struct Loading {
    found: Result<Option<Record>, AllocError>,
}

fn loads<S: Alter>(alloc: Global, keeper: &mut Keeper<S>) -> Result<Option<Record>, AllocError> {
    match keeper.load(alloc) {
        Ok(record) => Ok(record),
        Err(_) => Err(AllocError),
    }
}

impl Visitor for Loading {
    fn over<S: OverDisks>(
        &mut self,
        alloc: Global,
        conn: Result<Connection<S>, S::Disks>,
    ) -> S::Disks {
        match opened(conn) {
            Ok(mut keeper) => {
                self.found = loads(alloc, &mut keeper);
                closed(keeper)
            }
            Err(left) => left,
        }
    }
}

/// The record that a keeper loads of files of these contents, which answer all calls; None where
/// none is kept. It fails where the files can't be opened, what they keep is no record, or memory
/// is refused.
pub fn load_at(alloc: Global, contents: &Contents) -> Result<Option<Record>, AllocError> {
    let mut loading = Loading {
        found: Err(AllocError),
    };
    let _left = visit(alloc, contents, NO_STOP, false, &mut loading);
    loading.found
}
