//! Statements in transactions of their own.

ghost use Rattle.std.specs.Prelude.{◌≡◌, false, IsTrue, IfOk, OnOk, OnErr, IsPermutation, map, pos};
ghost use Rattle.sqlite.specs.declared.types.Value.TheVariants.{Int, Text};
ghost use Rattle.sqlite.specs.State.{HasCleanDisk, IsUnchanged, Survives};
ghost use Rattle.sqlite.specs.Held.{state};
ghost use Rattle.sqlite_catalog.specs.Listing.{IsSound};
ghost use Rattle.keep_tables.specs.Tables.{AddsFirst, AddsTables, AddsTotals, amount_shown, head_of, task_shown, AreByKey, IsCommitted, IsReady, Stays, Wrote, Replaced, AreIds, first_schema, second_schema, keeper_schema, no_schema, values_of};

use sqlite::{Alter, Connection, Error, Row, params};

/// Makes the two tables of a run's number and of a whole record's text, or none.
pub fn make_first_tables<S: Alter>(conn: &mut Connection<S>) -> Result<(), Error>
    requires { conn.old.in_transaction ≡ false }
    ensures clean { HasCleanDisk (state S.Store conn.new) → HasCleanDisk (state S.Store conn.old) }
    ensures made { HasCleanDisk (state S.Store conn.new)
        → (state S.Store conn.old).now.schema ≡ no_schema
        → OnOk result (IsCommitted first_schema AddsFirst (state S.Store conn.old)
        (state S.Store conn.new)) }
    ensures stop { Survives (state S.Store conn.old) (state S.Store conn.new)
        (λ db. (state S.Store conn.old).now.schema ≡ no_schema
        → IsSound first_schema db × AddsFirst (state S.Store conn.old).now.trees db) }
{
    let mut tx = conn.transaction();
    tx.execute(
        "CREATE TABLE agent_record (id INTEGER PRIMARY KEY CHECK (id = 1), body TEXT NOT NULL)",
        &[],
    )?;
    tx.execute(
        "CREATE TABLE run_number (id INTEGER PRIMARY KEY CHECK (id = 1), last INTEGER NOT NULL)",
        &[],
    )?;
    tx.commit()
}

/// Makes the two tables of a record's head and of its tasks, or none.
pub fn make_task_tables<S: Alter>(conn: &mut Connection<S>) -> Result<(), Error>
    requires { conn.old.in_transaction ≡ false }
    ensures clean { HasCleanDisk (state S.Store conn.new) → HasCleanDisk (state S.Store conn.old) }
    ensures made { HasCleanDisk (state S.Store conn.new)
        → (state S.Store conn.old).now.schema ≡ first_schema
        → OnOk result (IsCommitted second_schema AddsTables (state S.Store conn.old)
        (state S.Store conn.new)) }
    ensures stop { Survives (state S.Store conn.old) (state S.Store conn.new)
        (λ db. (state S.Store conn.old).now.schema ≡ first_schema
        → IsSound second_schema db × AddsTables (state S.Store conn.old).now.trees db) }
{
    let mut tx = conn.transaction();
    tx.execute(
        "CREATE TABLE agent_head (id INTEGER PRIMARY KEY CHECK (id = 1), name TEXT NOT NULL, run INTEGER NOT NULL, session INTEGER NOT NULL, total TEXT NOT NULL, version INTEGER NOT NULL)",
        &[],
    )?;
    tx.execute(
        "CREATE TABLE agent_task (run INTEGER NOT NULL, n INTEGER NOT NULL, body TEXT NOT NULL, PRIMARY KEY (run, n))",
        &[],
    )?;
    tx.commit()
}

/// Makes the table of a total's amounts, or none.
pub fn make_total_table<S: Alter>(conn: &mut Connection<S>) -> Result<(), Error>
    requires { conn.old.in_transaction ≡ false }
    ensures clean { HasCleanDisk (state S.Store conn.new) → HasCleanDisk (state S.Store conn.old) }
    ensures made { HasCleanDisk (state S.Store conn.new)
        → (state S.Store conn.old).now.schema ≡ second_schema
        → OnOk result (IsCommitted keeper_schema AddsTotals (state S.Store conn.old)
        (state S.Store conn.new)) }
    ensures stop { Survives (state S.Store conn.old) (state S.Store conn.new)
        (λ db. (state S.Store conn.old).now.schema ≡ second_schema
        → IsSound keeper_schema db × AddsTotals (state S.Store conn.old).now.trees db) }
{
    let mut tx = conn.transaction();
    tx.execute(
        "CREATE TABLE agent_total (name TEXT PRIMARY KEY, amount INTEGER NOT NULL)",
        &[],
    )?;
    tx.commit()
}

pub fn read_record_ids<S: Alter>(conn: &mut Connection<S>) -> Result<Vec<Row>, Error>
    ensures clean { HasCleanDisk (state S.Store conn.new) → HasCleanDisk (state S.Store conn.old) }
    ensures rows { (state S.Store conn.old).now.schema ≡ keeper_schema
        → HasCleanDisk (state S.Store conn.new)
        → IfOk result (λ rows. AreIds rows.items ((state S.Store conn.old).now.trees 0)) }
    ensures same { (state S.Store conn.old).now.schema ≡ keeper_schema
        → HasCleanDisk (state S.Store conn.new)
        → OnOk result (IsUnchanged (state S.Store conn.old) (state S.Store conn.new)) }
    ensures quiet { Survives (state S.Store conn.old) (state S.Store conn.new)
        (λ _. (state S.Store conn.old).now.schema ≡ keeper_schema → ⊥) }
{
    conn.query_all("SELECT id FROM agent_record", &[])
}

pub fn read_head_ids<S: Alter>(conn: &mut Connection<S>) -> Result<Vec<Row>, Error>
    ensures clean { HasCleanDisk (state S.Store conn.new) → HasCleanDisk (state S.Store conn.old) }
    ensures rows { (state S.Store conn.old).now.schema ≡ keeper_schema
        → HasCleanDisk (state S.Store conn.new)
        → IfOk result (λ rows. AreIds rows.items ((state S.Store conn.old).now.trees 2)) }
    ensures same { (state S.Store conn.old).now.schema ≡ keeper_schema
        → HasCleanDisk (state S.Store conn.new)
        → OnOk result (IsUnchanged (state S.Store conn.old) (state S.Store conn.new)) }
    ensures quiet { Survives (state S.Store conn.old) (state S.Store conn.new)
        (λ _. (state S.Store conn.old).now.schema ≡ keeper_schema → ⊥) }
{
    conn.query_all("SELECT id FROM agent_head", &[])
}

pub fn read_run_ids<S: Alter>(conn: &mut Connection<S>) -> Result<Vec<Row>, Error>
    ensures clean { HasCleanDisk (state S.Store conn.new) → HasCleanDisk (state S.Store conn.old) }
    ensures rows { (state S.Store conn.old).now.schema ≡ keeper_schema
        → HasCleanDisk (state S.Store conn.new)
        → IfOk result (λ rows. AreIds rows.items ((state S.Store conn.old).now.trees 1)) }
    ensures same { (state S.Store conn.old).now.schema ≡ keeper_schema
        → HasCleanDisk (state S.Store conn.new)
        → OnOk result (IsUnchanged (state S.Store conn.old) (state S.Store conn.new)) }
    ensures quiet { Survives (state S.Store conn.old) (state S.Store conn.new)
        (λ _. (state S.Store conn.old).now.schema ≡ keeper_schema → ⊥) }
{
    conn.query_all("SELECT id FROM run_number", &[])
}

pub fn write_last<S: Alter>(conn: &mut Connection<S>, last: u32) -> Result<usize, Error>
    ensures clean { HasCleanDisk (state S.Store conn.new) → HasCleanDisk (state S.Store conn.old) }
    ensures wrote { IsReady (state S.Store conn.old) → HasCleanDisk (state S.Store conn.new)
        → OnOk result (Wrote 1 (Int (pos last)) (state S.Store conn.old) (state S.Store conn.new)) }
    ensures failed { IsReady (state S.Store conn.old) → HasCleanDisk (state S.Store conn.new)
        → OnErr result (Stays (state S.Store conn.old) (state S.Store conn.new)) }
    ensures crash { IsReady (state S.Store conn.old)
        → Survives (state S.Store conn.old) (state S.Store conn.new)
        (Replaced 1 (Int (pos last)) (state S.Store conn.old).now.trees) }
{
    conn.execute(
        "INSERT OR REPLACE INTO run_number (id, last) VALUES (1, ?1)",
        params![last],
    )
}

pub fn read_bodies<S: Alter>(conn: &mut Connection<S>) -> Result<Vec<Row>, Error>
    ensures clean { HasCleanDisk (state S.Store conn.new) → HasCleanDisk (state S.Store conn.old) }
    ensures rows { IsReady (state S.Store conn.old) → HasCleanDisk (state S.Store conn.new)
        → IfOk result (λ rows. rows.items ≡ values_of ((state S.Store conn.old).now.trees 0)) }
    ensures stays { IsReady (state S.Store conn.old) → HasCleanDisk (state S.Store conn.new)
        → Stays (state S.Store conn.old) (state S.Store conn.new) }
    ensures up { IsReady (state S.Store conn.old) → HasCleanDisk (state S.Store conn.new)
        → OnOk result (IsTrue (state S.Store conn.new).is_open) }
    ensures crash { IsReady (state S.Store conn.old)
        → Survives (state S.Store conn.old) (state S.Store conn.new) (λ _. ⊥) }
    ensures quiet { Survives (state S.Store conn.old) (state S.Store conn.new)
        (λ _. IsReady (state S.Store conn.old) → ⊥) }
{
    conn.query_all("SELECT body FROM agent_record", &[])
}

pub fn read_lasts<S: Alter>(conn: &mut Connection<S>) -> Result<Vec<Row>, Error>
    ensures clean { HasCleanDisk (state S.Store conn.new) → HasCleanDisk (state S.Store conn.old) }
    ensures rows { IsReady (state S.Store conn.old) → HasCleanDisk (state S.Store conn.new)
        → IfOk result (λ rows. rows.items ≡ values_of ((state S.Store conn.old).now.trees 1)) }
    ensures stays { IsReady (state S.Store conn.old) → HasCleanDisk (state S.Store conn.new)
        → Stays (state S.Store conn.old) (state S.Store conn.new) }
    ensures up { IsReady (state S.Store conn.old) → HasCleanDisk (state S.Store conn.new)
        → OnOk result (IsTrue (state S.Store conn.new).is_open) }
    ensures crash { IsReady (state S.Store conn.old)
        → Survives (state S.Store conn.old) (state S.Store conn.new) (λ _. ⊥) }
    ensures quiet { Survives (state S.Store conn.old) (state S.Store conn.new)
        (λ _. IsReady (state S.Store conn.old) → ⊥) }
{
    conn.query_all("SELECT last FROM run_number", &[])
}

pub fn read_heads<S: Alter>(conn: &mut Connection<S>) -> Result<Vec<Row>, Error>
    ensures clean { HasCleanDisk (state S.Store conn.new) → HasCleanDisk (state S.Store conn.old) }
    ensures rows { IsReady (state S.Store conn.old) → HasCleanDisk (state S.Store conn.new)
        → IfOk result (λ rows. rows.items ≡ map head_of ((state S.Store conn.old).now.trees 2)) }
    ensures stays { IsReady (state S.Store conn.old) → HasCleanDisk (state S.Store conn.new)
        → Stays (state S.Store conn.old) (state S.Store conn.new) }
    ensures up { IsReady (state S.Store conn.old) → HasCleanDisk (state S.Store conn.new)
        → OnOk result (IsTrue (state S.Store conn.new).is_open) }
    ensures crash { IsReady (state S.Store conn.old)
        → Survives (state S.Store conn.old) (state S.Store conn.new) (λ _. ⊥) }
    ensures quiet { Survives (state S.Store conn.old) (state S.Store conn.new)
        (λ _. IsReady (state S.Store conn.old) → ⊥) }
{
    conn.query_all(
        "SELECT name, run, session, total, version FROM agent_head",
        &[],
    )
}

/// Rowid, run, number and body of each row of a task, by run and number.
pub fn read_tasks<S: Alter>(conn: &mut Connection<S>) -> Result<Vec<Row>, Error>
    ensures clean { HasCleanDisk (state S.Store conn.new) → HasCleanDisk (state S.Store conn.old) }
    ensures rows { IsReady (state S.Store conn.old) → HasCleanDisk (state S.Store conn.new)
        → IfOk result (λ rows. IsPermutation (map task_shown ((state S.Store conn.old).now.trees 3))
        rows.items) }
    ensures ordered { IsReady (state S.Store conn.old) → HasCleanDisk (state S.Store conn.new)
        → IfOk result (λ rows. AreByKey rows.items) }
    ensures stays { IsReady (state S.Store conn.old) → HasCleanDisk (state S.Store conn.new)
        → Stays (state S.Store conn.old) (state S.Store conn.new) }
    ensures up { IsReady (state S.Store conn.old) → HasCleanDisk (state S.Store conn.new)
        → OnOk result (IsTrue (state S.Store conn.new).is_open) }
    ensures crash { IsReady (state S.Store conn.old)
        → Survives (state S.Store conn.old) (state S.Store conn.new) (λ _. ⊥) }
    ensures quiet { Survives (state S.Store conn.old) (state S.Store conn.new)
        (λ _. IsReady (state S.Store conn.old) → ⊥) }
{
    conn.query_all(
        "SELECT rowid, run, n, body FROM agent_task ORDER BY run, n",
        &[],
    )
}

/// Name and amount of each row of a total, in any order.
pub fn read_amounts<S: Alter>(conn: &mut Connection<S>) -> Result<Vec<Row>, Error>
    ensures clean { HasCleanDisk (state S.Store conn.new) → HasCleanDisk (state S.Store conn.old) }
    ensures rows { IsReady (state S.Store conn.old) → HasCleanDisk (state S.Store conn.new)
        → IfOk result (λ rows. IsPermutation (map amount_shown
        ((state S.Store conn.old).now.trees 5)) rows.items) }
    ensures stays { IsReady (state S.Store conn.old) → HasCleanDisk (state S.Store conn.new)
        → Stays (state S.Store conn.old) (state S.Store conn.new) }
    ensures up { IsReady (state S.Store conn.old) → HasCleanDisk (state S.Store conn.new)
        → OnOk result (IsTrue (state S.Store conn.new).is_open) }
    ensures crash { IsReady (state S.Store conn.old)
        → Survives (state S.Store conn.old) (state S.Store conn.new) (λ _. ⊥) }
    ensures quiet { Survives (state S.Store conn.old) (state S.Store conn.new)
        (λ _. IsReady (state S.Store conn.old) → ⊥) }
{
    conn.query_all("SELECT name, amount FROM agent_total", &[])
}
