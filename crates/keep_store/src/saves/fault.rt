//! The fault that an error of the store is.

ghost use Rattle.std.specs.Prelude.{◌≡◌};
ghost use Rattle.keep_tables.specs.Tables.{fault_for};

use keep_tables::KeepFault;
use sqlite::Error;

/// `keep_tables::fault_of` as a function of a public module, which can be passed to `map_err`, here
/// and in the crates above.
pub fn fault_of(error: Error) -> KeepFault
    ensures { result ≡ fault_for error }
{
    keep_tables::fault_of(error)
}
