//! The rows of the tables that keep a record.

ghost use Rattle.std.specs.Prelude.{◌≡◌, ◌≢◌, IfOk, IfErr, OnOk, OnErr};
ghost use Rattle.sqlite.specs.State.{HasCleanDisk, Survives};
ghost use Rattle.sqlite.specs.Held.{state};
ghost use Rattle.keep_tables.specs.Tables.{IsReady, Shows, Stays};

use crate::rows::statements::{read_amounts, read_bodies, read_heads, read_tasks};
use sqlite::{Alter, Connection, Error, Row};

/// The rows of four tables, as queries show them.
#[derive(Drop)]
pub struct Rows {
    /// Texts of whole records.
    pub records: Vec<Row>,
    /// Name, run, session, total and version.
    pub heads: Vec<Row>,
    /// Rowid, run, number and body, by run and number.
    pub tasks: Vec<Row>,
    /// Name and amount of each resource of a total, in any order.
    pub amounts: Vec<Row>,
}

/// The rows that keep a record. They are read only.
pub fn read_rows<S: Alter>(conn: &mut Connection<S>) -> Result<Rows, Error>
    ensures clean { HasCleanDisk (state S.Store conn.new) → HasCleanDisk (state S.Store conn.old) }
    ensures rows { IsReady (state S.Store conn.old) → HasCleanDisk (state S.Store conn.new)
        → IfOk result (λ rows. Shows (state S.Store conn.old).now.trees rows.records.items
        rows.heads.items rows.tasks.items rows.amounts.items) }
    ensures stays { IsReady (state S.Store conn.old) → HasCleanDisk (state S.Store conn.new)
        → Stays (state S.Store conn.old) (state S.Store conn.new) }
    ensures up { IsReady (state S.Store conn.old) → HasCleanDisk (state S.Store conn.new)
        → OnOk result (IsReady (state S.Store conn.new)) }
    ensures stop { IsReady (state S.Store conn.old)
        → Survives (state S.Store conn.old) (state S.Store conn.new) (λ _. ⊥) }
{
    let records = read_bodies(conn)?;
    let heads = read_heads(conn)?;
    let tasks = read_tasks(conn)?;
    let amounts = read_amounts(conn)?;
    Ok(Rows {
        records,
        heads,
        tasks,
        amounts,
    })
}
