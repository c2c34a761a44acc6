//! The tables that a store lacks beside those that it has.

ghost use Rattle.std.specs.Prelude.{◌≡◌, ◌≢◌, true, false, IsOk, OnOk};
ghost use Rattle.sqlite.specs.State.{HasCleanDisk, Survives};
ghost use Rattle.sqlite.specs.Held.{state};
ghost use Rattle.keep_tables.specs.Tables.{AddsFirst, AddsTables, AddsTotals, HasKnownTables, first_schema, second_schema, keeper_schema, no_schema};
ghost use Rattle.keep_store.specs.Kept.{Completes, LeavesIf, MakesIf, StillKeeps};

use keep_tables::statements::{make_first_tables, make_task_tables, make_total_table};
use keep_tables::{is_first, is_new, is_second};
use sqlite::{Alter, Connection, Error};

/// Makes the tables of records and of runs where there is none yet and no transaction is open.
fn add_first<S: Alter>(conn: &mut Connection<S>) -> Result<(), Error>
    ensures clean { HasCleanDisk (state S.Store conn.new) → HasCleanDisk (state S.Store conn.old) }
    ensures made { HasCleanDisk (state S.Store conn.new)
        → OnOk result (MakesIf no_schema first_schema AddsFirst
        (state S.Store conn.old) (state S.Store conn.new)) }
    ensures other { (state S.Store conn.old).now.schema ≢ no_schema
        → IsOk result × (conn.new ≡ conn.old) }
    ensures inside { (state S.Store conn.old).in_transaction ≡ true
        → IsOk result × (conn.new ≡ conn.old) }
    ensures stop { Survives (state S.Store conn.old) (state S.Store conn.new)
        (LeavesIf no_schema first_schema AddsFirst (state S.Store conn.old).now) }
{
    if !conn.is_autocommit() || !is_new(conn.schema()) {
        return Ok(());
    }
    make_first_tables(conn)
}

/// Makes the tables of heads and of tasks where there are those of records and of runs alone
/// and no transaction is open.
fn add_tasks<S: Alter>(conn: &mut Connection<S>) -> Result<(), Error>
    ensures clean { HasCleanDisk (state S.Store conn.new) → HasCleanDisk (state S.Store conn.old) }
    ensures made { HasCleanDisk (state S.Store conn.new)
        → OnOk result (MakesIf first_schema second_schema AddsTables
        (state S.Store conn.old) (state S.Store conn.new)) }
    ensures other { (state S.Store conn.old).now.schema ≢ first_schema
        → IsOk result × (conn.new ≡ conn.old) }
    ensures inside { (state S.Store conn.old).in_transaction ≡ true
        → IsOk result × (conn.new ≡ conn.old) }
    ensures stop { Survives (state S.Store conn.old) (state S.Store conn.new)
        (LeavesIf first_schema second_schema AddsTables (state S.Store conn.old).now) }
{
    if !conn.is_autocommit() || !is_first(conn.schema()) {
        return Ok(());
    }
    make_task_tables(conn)
}

/// Makes the table of totals where there are the four others and no transaction is open.
fn add_totals<S: Alter>(conn: &mut Connection<S>) -> Result<(), Error>
    ensures clean { HasCleanDisk (state S.Store conn.new) → HasCleanDisk (state S.Store conn.old) }
    ensures made { HasCleanDisk (state S.Store conn.new)
        → OnOk result (MakesIf second_schema keeper_schema AddsTotals
        (state S.Store conn.old) (state S.Store conn.new)) }
    ensures other { (state S.Store conn.old).now.schema ≢ second_schema
        → IsOk result × (conn.new ≡ conn.old) }
    ensures inside { (state S.Store conn.old).in_transaction ≡ true
        → IsOk result × (conn.new ≡ conn.old) }
    ensures stop { Survives (state S.Store conn.old) (state S.Store conn.new)
        (LeavesIf second_schema keeper_schema AddsTotals (state S.Store conn.old).now) }
{
    if !conn.is_autocommit() || !is_second(conn.schema()) {
        return Ok(());
    }
    make_total_table(conn)
}

/// Makes the tables that a new store lacks, one that kept a record as one text, or one that kept a
/// total in its head; none where the tables aren't a keeper's or a transaction is open.
pub fn add_tables<S: Alter>(conn: &mut Connection<S>) -> Result<(), Error>
    ensures clean { HasCleanDisk (state S.Store conn.new) → HasCleanDisk (state S.Store conn.old) }
    ensures made { HasCleanDisk (state S.Store conn.new)
        → OnOk result (Completes (state S.Store conn.old) (state S.Store conn.new)) }
    ensures outside { HasCleanDisk (state S.Store conn.new)
        → (state S.Store conn.old).in_transaction ≡ false
        → OnOk result ((state S.Store conn.new).in_transaction ≡ false) }
    ensures unknown { (HasKnownTables (state S.Store conn.old).now.schema → ⊥)
        → IsOk result × (conn.new ≡ conn.old) }
    ensures inside { (state S.Store conn.old).in_transaction ≡ true
        → IsOk result × (conn.new ≡ conn.old) }
    ensures stop { Survives (state S.Store conn.old) (state S.Store conn.new)
        (StillKeeps (state S.Store conn.old).now) }
{
    add_first(conn)?;
    add_tasks(conn)?;
    add_totals(conn)
}
