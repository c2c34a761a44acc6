//! Connections to files.

ghost use Rattle.std.specs.Prelude.{◌≡◌, true, false, IsTrue, IfOk};
ghost use Rattle.sqlite.specs.State.{HasCleanDisk};
ghost use Rattle.sqlite.specs.Files.{file_state, IsOpened};
ghost use Rattle.sqlite.specs.Start.{FindsIn};
ghost use Rattle.sqlite_std_file.specs.File.{file_is_usable, IsFresh};
ghost use Rattle.sqlite.specs.WalFiles.{image_at};

use sqlite::{Connection, Error, ErrorCode, FileFrom, FileStore, Files, Options, Start};
use sqlite_std_file::OpenError;
use std::hash::{BuildHasher, RandomState};
use std::io::ErrorKind;

/// How many pages of 4,096 bytes a store has room for in memory:
/// all of an agent's record of a thousand tasks.
const CACHE_PAGES: usize = 64;

const NO_MEMORY: Error = Error::SqliteFailure(ErrorCode::OutOfMemory);

const CANNOT_OPEN: Error = Error::SqliteFailure(ErrorCode::CannotOpen);

/// The database file at a path, and its journal beside it. Each is made where there is none.
fn open_pair<S: Start>(rt: &HostRuntime, path: &str, start: S) -> Result<Files<FileFrom<S>>, Error>
    ensures log { IfOk result (λ files. IsTrue (file_is_usable S.Start files.log)) }
    ensures db { IfOk result (λ files. IsTrue (file_is_usable S.Start files.db)) }
    ensures fresh { IfOk result (λ files. IsFresh true files.log × IsFresh false files.db) }
{
    match sqlite_std_file::open(rt, path, start) {
        Ok(files) => Ok(files),
        Err(OpenError::OutOfMemory) => Err(NO_MEMORY),
        Err(OpenError::Busy) => Err(Error::SqliteFailure(ErrorCode::DatabaseBusy)),
        Err(OpenError::Io(error)) if error.kind() == ErrorKind::OutOfMemory => Err(NO_MEMORY),
        Err(_) => Err(CANNOT_OPEN),
    }
}

/// How a store is opened that keeps few pages in memory.
fn options(rt: &HostRuntime) -> Result<Options, Error> {
    let Ok(state) = RandomState::new(rt) else {
        return Err(CANNOT_OPEN);
    };
    Ok(Options {
        cache_pages: CACHE_PAGES,
        ..Options::new(state.hash_one(&0u8))
    })
}

/// A connection to the files at a path. `S` represents what they hold, and `start` is its value.
/// What is left of files that no connection is opened to is dropped.
pub fn connect<S: Start>(
    rt: &HostRuntime,
    path: &str,
    start: S,
) -> Result<Connection<FileStore<FileFrom<S>>>, Error>
    ensures opened { IfOk result (λ c. HasCleanDisk (file_state c) → IsOpened c) }
    ensures found { IfOk result (λ c. HasCleanDisk (file_state c)
        → FindsIn (image_at S.Start) (file_state c)) }
{
    let files = open_pair(rt, path, start)?;
    let options = options(rt)?;
    match Connection::open_files(rt.alloc(), files, options) {
        Ok(conn) => Ok(conn),
        Err((error, _)) => Err(error),
    }
}
