//! Keepers whose files go on without them: closed with both files open and locked, and opened
//! again.

ghost use Rattle.std.specs.Prelude.{◌≡◌, ◌≢◌, ◌≤◌, Ok, IfOk, IfErr};
ghost use Rattle.sqlite_wal.specs.Reads.{AreClean};
ghost use Rattle.sqlite.specs.State.{HasCleanDisk};
ghost use Rattle.sqlite.specs.Closing.{IsCopied};
ghost use Rattle.sqlite.specs.Files.{file_state, image_of, Finds, HoldsDatabase, IsClosed, IsOpened};
ghost use Rattle.sqlite_catalog.specs.Listing.{IsSound};
ghost use Rattle.keep_tables.specs.Tables.{IsReady, first_schema, keeper_schema, no_schema, second_schema};

use keep_store::fault::fault_of;
use keep_store::{KeepFault, Keeper};
use sqlite::{Connection, Error, ErrorCode, FileStore, Files, Options};
use sqlite_disk::Disk;
use std::hash::{BuildHasher, RandomState};

/// How many pages of 4,096 bytes a store has room for in memory:
/// all of an agent's record of a thousand tasks.
const CACHE_PAGES: usize = 64;

/// With so many frames a write-ahead file is copied into the database file, before the next
/// transaction writes to it. Each transaction that changes something adds one or more.
const LONG_LOG: usize = 1_000;

const CANNOT_OPEN: Error = Error::SqliteFailure(ErrorCode::CannotOpen);

/// How a store is opened that keeps few pages in memory, and whose write-ahead file stays short.
fn options(rt: &HostRuntime) -> Result<Options, Error>
    ensures { IfOk result (λ options. options.checkpoint_frames ≤ 1000) }
{
    let Ok(state) = RandomState::new(rt) else {
        return Err(CANNOT_OPEN);
    };
    Ok(Options {
        cache_pages: CACHE_PAGES,
        checkpoint_frames: LONG_LOG,
        ..Options::new(state.hash_one(&0u8))
    })
}

/// A connection to files that are open, of which no sync has failed. What is left of files that no
/// connection is opened to is dropped.
fn connect_over<D: Disk + Drop>(
    rt: &HostRuntime,
    files: Files<D>,
) -> Result<Connection<FileStore<D>>, Error>
    ensures opened { IfOk result (λ c. HasCleanDisk (file_state c) → IsOpened c) }
    ensures found { IfOk result (λ c. HasCleanDisk (file_state c) → Finds files c) }
{
    if !files.may_be_used() {
        return Err(CANNOT_OPEN);
    }
    let options = options(rt)?;
    match Connection::open_files(rt.alloc(), files, options) {
        Ok(conn) => Ok(conn),
        Err((error, _)) => Err(error),
    }
}

/// Closes a connection. Its write-ahead file is copied into the database file, and cut.
#[tactic(auto, using(crate::proofs::ClosingLemmas::sound_ready))]
fn close_files<D: Disk + Drop>(
    conn: Connection<FileStore<D>>,
) -> Result<Files<D>, (Error, FileStore<D>)>
    ensures copied { IfOk result (λ files. AreClean D.Disk files.log files.db
        → IsCopied conn files) }
    ensures stop { IfErr result (λ refused. IsClosed conn refused.1) }
    ensures sound { IsReady (file_state conn)
        → IsSound keeper_schema (file_state conn).committed.trees }
{
    // (the look says that the trees list their tables)
    conn.schema();
    match conn.close_files() {
        Ok(files) => Ok(files),
        Err(refused) => Err(refused),
    }
}

/// The fault that an error of a close is: K1, or K4 for want of memory.
fn closing_fault(error: Error) -> KeepFault
    ensures undamaged { result ≢ KeepFault.Damaged }
    ensures unspent { result ≢ KeepFault.RunsSpent }
{
    fault_of(error)
}

/// The keeper over a connection, where it was opened. What is left where it can't be is dropped.
fn keeper_over<D: Disk + Drop>(
    opened: Result<Connection<FileStore<D>>, Error>,
) -> Result<Keeper<FileStore<D>>, KeepFault>
    ensures ready { IfOk result (λ keeper. HasCleanDisk (file_state keeper)
        → IsReady (file_state keeper)) }
    ensures found { IfOk result (λ keeper. HasCleanDisk (file_state keeper)
        → (conn : _) × (opened ≡ Ok conn) × HasCleanDisk (file_state conn)
        × ((file_state conn).now.schema ≢ no_schema
        → (file_state conn).now.schema ≢ first_schema
        → (file_state conn).now.schema ≢ second_schema
        → (file_state keeper).now ≡ (file_state conn).now)) }
    ensures unspent { IfErr result (λ e. e ≢ KeepFault.RunsSpent) }
{
    let conn = match opened {
        Ok(conn) => conn,
        Err(error) => return Err(fault_of(error)),
    };
    match Keeper::adopt(conn) {
        Ok(keeper) => Ok(keeper),
        Err(refused) => Err(refused.0),
    }
}

/// The keeper over files that are open. Refusals are those of `Keeper::adopt`, and K1 where a sync
/// of the files has failed; the files are closed then.
pub fn over_files<D: Disk + Drop>(
    rt: &HostRuntime,
    files: Files<D>,
) -> Result<Keeper<FileStore<D>>, KeepFault>
    ensures ready { IfOk result (λ keeper. HasCleanDisk (file_state keeper)
        → IsReady (file_state keeper)) }
    ensures honest { IfOk result (λ keeper. HasCleanDisk (file_state keeper)
        → AreClean D.Disk files.log files.db) }
    ensures found { IfOk result (λ keeper. HasCleanDisk (file_state keeper) → (db : _)
        → HoldsDatabase (image_of D.Disk files) db → IsSound keeper_schema db
        → (file_state keeper).now.trees ≡ db) }
    ensures unspent { IfErr result (λ e. e ≢ KeepFault.RunsSpent) }
{
    keeper_over(connect_over(rt, files))
}

/// Copies the write-ahead file of a store into its database file, cuts it to its header of 41
/// bytes, and returns both files, open and locked. After K1, for an error of the store, and K4, for
/// want of memory, a stop leaves what could be left before.
pub fn into_files<D: Disk + Drop>(
    keeper: Keeper<FileStore<D>>,
) -> Result<Files<D>, (KeepFault, FileStore<D>)>
    ensures copied { IfOk result (λ files. AreClean D.Disk files.log files.db
        → IsCopied keeper files) }
    ensures sound { IsReady (file_state keeper)
        → IsSound keeper_schema (file_state keeper).committed.trees }
    ensures stop { IfErr result (λ refused. IsClosed keeper refused.1) }
    ensures undamaged { IfErr result (λ refused. refused.0 ≢ KeepFault.Damaged) }
    ensures unspent { IfErr result (λ refused. refused.0 ≢ KeepFault.RunsSpent) }
{
    match close_files(keeper.into_connection()) {
        Ok(files) => Ok(files),
        Err((error, store)) => Err((closing_fault(error), store)),
    }
}

/// Copies the write-ahead file of a store into its database file, cuts it to its header of 41
/// bytes, and opens both again, which stay locked meanwhile. What is kept stays. K1 for an error of
/// the store, K4 for want of memory; then the files are closed.
pub fn fold<D: Disk + Drop>(
    rt: &HostRuntime,
    keeper: Keeper<FileStore<D>>,
) -> Result<Keeper<FileStore<D>>, KeepFault>
    ensures ready { IfOk result (λ again. HasCleanDisk (file_state again)
        → IsReady (file_state again)) }
    ensures clean { IfOk result (λ again. HasCleanDisk (file_state again)
        → HasCleanDisk (file_state keeper)) }
    ensures same { IfOk result (λ again. HasCleanDisk (file_state again)
        → IsReady (file_state keeper)
        → (file_state again).now.trees ≡ (file_state keeper).now.trees) }
    ensures unspent { IfErr result (λ e. e ≢ KeepFault.RunsSpent) }
{
    match into_files(keeper) {
        Ok(files) => over_files(rt, files),
        Err((fault, store)) => {
            drop(store.close());
            Err(fault)
        }
    }
}
