//! The statements of a save, each within its transaction.

ghost use Rattle.std.specs.Prelude.{◌≡◌, ◌≤◌, ◌^◌, [], pos, IfOk};
ghost use Rattle.sqlite.specs.State.{HasCleanDisk, Survives};
ghost use Rattle.sqlite.specs.Held.{state};
ghost use Rattle.keep_tables.specs.Tables.{IsWriting, IsSame, AreIds, SparesOthers, Empties, Cuts, Puts, place_of, task_row, head_row, amount_row, WritesIfOk};

use names_core::LaunchKey;
use sqlite::{Alter, Error, Row, Transaction, params};

/// The rowid of a task's row.
pub fn place_of(key: LaunchKey) -> i64
    ensures { result ≡ pos (place_of key) }
{
    let place = u64::from(key.run()) * 4_294_967_296 + u64::from(key.number());
    place as i64
}

/// Deletes the row of a task.
pub fn cut_task<S: Alter>(tx: &mut Transaction<'_, S>, key: LaunchKey) -> Result<usize, Error>
    ensures same_reference { tx.new.conn.ghost_name ≡ tx.old.conn.ghost_name }
    ensures quiet { Survives (state S.Store tx.old.conn.now) (state S.Store tx.new.conn.now)
        (λ _. ⊥) }
    ensures went { WritesIfOk (Cuts (place_of key)) result (state S.Store tx.old.conn.now)
        (state S.Store tx.new.conn.now) }
{
    let place = place_of(key);
    tx.execute("DELETE FROM agent_task WHERE rowid = ?1", params![place])
}

/// Inserts a row for a task that has none.
pub fn put_task<S: Alter>(
    tx: &mut Transaction<'_, S>,
    key: LaunchKey,
    body: &str,
) -> Result<usize, Error>
    ensures same_reference { tx.new.conn.ghost_name ≡ tx.old.conn.ghost_name }
    ensures quiet { Survives (state S.Store tx.old.conn.now) (state S.Store tx.new.conn.now)
        (λ _. ⊥) }
    ensures went { WritesIfOk (Puts 3 (task_row key body.now)) result
        (state S.Store tx.old.conn.now) (state S.Store tx.new.conn.now) }
{
    let place = place_of(key);
    tx.execute(
        "INSERT INTO agent_task (rowid, run, n, body) VALUES (?1, ?2, ?3, ?4)",
        params![place, u32::from(key.run()), key.number(), body],
    )
}

/// Inserts the head's row where there is none.
pub fn put_head<S: Alter>(
    tx: &mut Transaction<'_, S>,
    name: &str,
    run: u32,
    session: u32,
) -> Result<usize, Error>
    ensures same_reference { tx.new.conn.ghost_name ≡ tx.old.conn.ghost_name }
    ensures quiet { Survives (state S.Store tx.old.conn.now) (state S.Store tx.new.conn.now)
        (λ _. ⊥) }
    ensures went { WritesIfOk (Puts 2 (head_row name.now run session)) result
        (state S.Store tx.old.conn.now) (state S.Store tx.new.conn.now) }
{
    tx.execute(
        "INSERT INTO agent_head (id, name, run, session, total, version) VALUES (1, ?1, ?2, ?3, '{}', 2)",
        params![name, run, session],
    )
}

/// Deletes the head's row.
pub fn clear_heads<S: Alter>(tx: &mut Transaction<'_, S>) -> Result<usize, Error>
    ensures same_reference { tx.new.conn.ghost_name ≡ tx.old.conn.ghost_name }
    ensures quiet { Survives (state S.Store tx.old.conn.now) (state S.Store tx.new.conn.now)
        (λ _. ⊥) }
    ensures went { WritesIfOk (Empties 2) result (state S.Store tx.old.conn.now)
        (state S.Store tx.new.conn.now) }
{
    tx.execute("DELETE FROM agent_head", &[])
}

/// Deletes the row of a record's text.
pub fn clear_records<S: Alter>(tx: &mut Transaction<'_, S>) -> Result<usize, Error>
    ensures same_reference { tx.new.conn.ghost_name ≡ tx.old.conn.ghost_name }
    ensures quiet { Survives (state S.Store tx.old.conn.now) (state S.Store tx.new.conn.now)
        (λ _. ⊥) }
    ensures went { WritesIfOk (Empties 0) result (state S.Store tx.old.conn.now)
        (state S.Store tx.new.conn.now) }
{
    tx.execute("DELETE FROM agent_record", &[])
}

/// Deletes the rows of all tasks.
pub fn clear_tasks<S: Alter>(tx: &mut Transaction<'_, S>) -> Result<usize, Error>
    ensures same_reference { tx.new.conn.ghost_name ≡ tx.old.conn.ghost_name }
    ensures quiet { Survives (state S.Store tx.old.conn.now) (state S.Store tx.new.conn.now)
        (λ _. ⊥) }
    ensures went { WritesIfOk (SparesOthers 3) result (state S.Store tx.old.conn.now)
        (state S.Store tx.new.conn.now) }
{
    tx.execute("DELETE FROM agent_task", &[])
}

/// The rowids of the rows of tasks.
pub fn read_places<S: Alter>(tx: &mut Transaction<'_, S>) -> Result<Vec<Row>, Error>
    ensures same_reference { tx.new.conn.ghost_name ≡ tx.old.conn.ghost_name }
    ensures quiet { Survives (state S.Store tx.old.conn.now) (state S.Store tx.new.conn.now)
        (λ _. ⊥) }
    ensures rows { IsWriting (state S.Store tx.old.conn.now)
        → HasCleanDisk (state S.Store tx.new.conn.now)
        → IfOk result (λ rows. AreIds rows.items ((state S.Store tx.old.conn.now).now.trees 3)) }
    ensures went { WritesIfOk IsSame result (state S.Store tx.old.conn.now)
        (state S.Store tx.new.conn.now) }
{
    tx.query_all("SELECT rowid FROM agent_task", &[])
}

/// Inserts a row for an amount of a total, at a rowid that is free.
pub fn put_amount<S: Alter>(
    tx: &mut Transaction<'_, S>,
    place: u32,
    name: &str,
    amount: u64,
) -> Result<usize, Error>
    requires { amount ≤ 2 ^ 40 }
    ensures same_reference { tx.new.conn.ghost_name ≡ tx.old.conn.ghost_name }
    ensures quiet { Survives (state S.Store tx.old.conn.now) (state S.Store tx.new.conn.now)
        (λ _. ⊥) }
    ensures went { WritesIfOk (Puts 5 (amount_row place name.now amount)) result
        (state S.Store tx.old.conn.now) (state S.Store tx.new.conn.now) }
{
    tx.execute(
        "INSERT INTO agent_total (rowid, name, amount) VALUES (?1, ?2, ?3)",
        params![place, name, amount as i64],
    )
}

/// Deletes the rows of a total.
pub fn clear_amounts<S: Alter>(tx: &mut Transaction<'_, S>) -> Result<usize, Error>
    ensures same_reference { tx.new.conn.ghost_name ≡ tx.old.conn.ghost_name }
    ensures quiet { Survives (state S.Store tx.old.conn.now) (state S.Store tx.new.conn.now)
        (λ _. ⊥) }
    ensures went { WritesIfOk (SparesOthers 5) result (state S.Store tx.old.conn.now)
        (state S.Store tx.new.conn.now) }
{
    tx.execute("DELETE FROM agent_total", &[])
}

/// The rowids of the rows of a total.
pub fn read_amount_places<S: Alter>(tx: &mut Transaction<'_, S>) -> Result<Vec<Row>, Error>
    ensures same_reference { tx.new.conn.ghost_name ≡ tx.old.conn.ghost_name }
    ensures quiet { Survives (state S.Store tx.old.conn.now) (state S.Store tx.new.conn.now)
        (λ _. ⊥) }
    ensures rows { IsWriting (state S.Store tx.old.conn.now)
        → HasCleanDisk (state S.Store tx.new.conn.now)
        → IfOk result (λ rows. AreIds rows.items ((state S.Store tx.old.conn.now).now.trees 5)) }
    ensures went { WritesIfOk IsSame result (state S.Store tx.old.conn.now)
        (state S.Store tx.new.conn.now) }
{
    tx.query_all("SELECT rowid FROM agent_total", &[])
}
