//! Pairs of files in memory that stop working after so many calls.

use sqlite::{Connection, FileStore, Files, Options};
use sqlite_disk::{Crash, Disk, Fuse, Memory};
use std::alloc::Global;

pub type Disks = Files<Fuse<Memory>>;

/// What two files hold.
#[derive(Drop)]
pub struct Contents {
    journal: Vec<u8>,
    database: Vec<u8>,
}

/// How many calls a file answers before it stops.
#[derive(Clone, Copy)]
pub struct Calls {
    journal: u64,
    database: u64,
}

pub const NO_STOP: Calls = Calls {
    journal: u64::MAX,
    database: u64::MAX,
};

/// Which calls one file answers, while the other answers all.
pub fn calls_of(is_journal: bool, calls: u64) -> Calls {
    if is_journal {
        return Calls {
            journal: calls,
            ..NO_STOP
        };
    }
    Calls {
        database: calls,
        ..NO_STOP
    }
}

pub fn nothing(alloc: Global) -> Contents {
    Contents {
        journal: Vec::new(alloc),
        database: Vec::new(alloc),
    }
}

fn disk_of(alloc: Global, bytes: &[u8], calls: u64) -> Option<Fuse<Memory>> {
    let mut disk = Memory::new(alloc);
    if disk.write_at(0, bytes).is_err() || disk.sync().is_err() {
        return None;
    }
    Some(Fuse::new(disk, calls))
}

pub fn disks_of(alloc: Global, contents: &Contents, calls: Calls) -> Option<Disks> {
    let log = disk_of(alloc, contents.journal.as_slice(), calls.journal)?;
    match disk_of(alloc, contents.database.as_slice(), calls.database) {
        Some(db) => Some(Files { log, db }),
        None => None,
    }
}

fn crash(disks: &mut Disks) {
    disks.log.crash();
    disks.db.crash();
}

fn bytes_of(alloc: Global, disk: &Fuse<Memory>) -> Option<Vec<u8>> {
    Vec::from_slice(alloc, disk.inner().bytes()).ok()
}

fn contents_on(alloc: Global, disks: &Disks) -> Option<Contents> {
    let journal = bytes_of(alloc, &disks.log)?;
    match bytes_of(alloc, &disks.db) {
        Some(database) => Some(Contents { journal, database }),
        None => None,
    }
}

/// What a stop leaves on the disks: all that was written, or what was synced alone.
pub fn contents_of(alloc: Global, mut disks: Disks, is_lossy: bool) -> Option<Contents> {
    if is_lossy {
        crash(&mut disks);
    }
    contents_on(alloc, &disks)
}

/// The journal is copied into the database file at each write, so that a save takes calls of both.
/// The stores have few pages, so each takes little memory.
fn options() -> Options {
    Options {
        cache_pages: 64,
        checkpoint_frames: 1,
        ..Options::new(7)
    }
}

pub fn connected<D: Disk + Drop>(
    alloc: Global,
    disks: Files<D>,
) -> Result<Connection<FileStore<D>>, Files<D>> {
    if !disks.may_be_used() {
        return Err(disks);
    }
    match Connection::open_files(alloc, disks, options()) {
        Ok(conn) => Ok(conn),
        Err((_, left)) => Err(left.into_files()),
    }
}
