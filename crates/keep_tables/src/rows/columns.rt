//! The value in a column of a row.

ghost use Rattle.std.specs.Prelude.{string_bytes};
ghost use Rattle.sqlite.specs.Order.{column};
ghost use Rattle.keep_tables.specs.Columns.{Gives, amount_at, number_at, text_at};

use crate::rows::fault::KeepFault;
use sqlite::{Error, ErrorCode, Row};

/// The greatest amount of a resource.
const GREATEST_AMOUNT: u64 = 1 << 40;

/// The whole number of 32 bits in a column: K2 where there is none, K4 for want of memory.
pub fn number_at(row: &Row, at: usize) -> Result<u32, KeepFault>
    ensures { Gives (λ n. n) result (number_at (column row.now at)) }
{
    match row.get::<u32>(at) {
        Ok(number) => Ok(number),
        Err(Error::SqliteFailure(ErrorCode::OutOfMemory)) => Err(KeepFault::OutOfMemory),
        Err(_) => Err(KeepFault::Damaged),
    }
}

/// The amount in a column, from 1 to 2^40: K2 where there is none, K4 for want of memory.
pub fn amount_at(row: &Row, at: usize) -> Result<u64, KeepFault>
    ensures { Gives (λ n. n) result (amount_at (column row.now at)) }
{
    match row.get::<u64>(at) {
        Ok(0) => Err(KeepFault::Damaged),
        Ok(amount) if amount > GREATEST_AMOUNT => Err(KeepFault::Damaged),
        Ok(amount) => Ok(amount),
        Err(Error::SqliteFailure(ErrorCode::OutOfMemory)) => Err(KeepFault::OutOfMemory),
        Err(_) => Err(KeepFault::Damaged),
    }
}

/// The text in a column: K2 where there is none in UTF-8, K4 for want of memory.
pub fn text_at(row: &Row, at: usize) -> Result<String, KeepFault>
    ensures { Gives string_bytes result (text_at (column row.now at)) }
{
    match row.get::<String>(at) {
        Ok(text) => Ok(text),
        Err(Error::SqliteFailure(ErrorCode::OutOfMemory)) => Err(KeepFault::OutOfMemory),
        Err(_) => Err(KeepFault::Damaged),
    }
}
