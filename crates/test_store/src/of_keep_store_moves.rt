//! A keeper over a store of version 1, which its first save migrates to version 2;
//! and rows of version 2 that are no record.

use crate::older_forms::{write_rows, write_text};
use crate::records::{OWNS_4, OWNS_8, load, save};
use keep_store::{KeepFault, Keeper};
use sqlite::{Alter, Connection};
use std::alloc::Global;

/// What a keeper loads, of the two records of an agent that owns more and more;
/// whether it saves the second; and what it loads then.
fn answers<S: Alter>(
    keeper: &mut Keeper<S>,
    alloc: Global,
) -> [Result<Option<usize>, KeepFault>; 2] {
    let texts = [OWNS_4, OWNS_8];
    let found = load(alloc, keeper, &texts);
    if !save(alloc, keeper, OWNS_8) {
        return [found, Ok(None)];
    }
    [found, load(alloc, keeper, &texts)]
}

/// Whether the first row of a query is this text and this number.
fn shows<S: Alter>(conn: &mut Connection<S>, query: &str, text: &str, number: u64) -> bool {
    let Ok(rows) = conn.query_all(query, &[]) else {
        return false;
    };
    let [row] = rows.as_slice() else {
        return false;
    };
    row.get::<String>(0).is_ok_and(|it| it.as_str() == text) && row.get::<u64>(1) == Ok(number)
}

/// Whether a store has `OWNS_8` in version 2: its head, the two rows of its total,
/// and no record as one text.
fn has_second_version<S: Alter>(conn: &mut Connection<S>) -> bool {
    shows(conn, "SELECT total, version FROM agent_head", "{}", 2)
        && shows(
            conn,
            "SELECT name, amount FROM agent_total WHERE name = 'cpus'",
            "cpus",
            8,
        )
        && shows(
            conn,
            "SELECT name, amount FROM agent_total WHERE name = 'mem'",
            "mem",
            8192,
        )
        && shows(
            conn,
            "SELECT 'amounts', count(*) FROM agent_total",
            "amounts",
            2,
        )
        && shows(
            conn,
            "SELECT 'records', count(*) FROM agent_record",
            "records",
            0,
        )
}

/// Whether a store of version 1 returns its record, and that of the next save after it,
/// which it then has in version 2.
fn is_moved<S: Alter + Drop>(alloc: Global, conn: Connection<S>) -> bool {
    let Ok(mut keeper) = Keeper::adopt(conn) else {
        return false;
    };
    let answers = answers(&mut keeper, alloc);
    let mut conn = keeper.into_connection();
    answers == [Ok(Some(1)), Ok(Some(2))] && has_second_version(&mut conn)
}

/// A record that is kept as one text is loaded, and migrated by a save.
pub fn a_text_is_moved(alloc: Global) -> bool {
    match Connection::open_in_memory(alloc) {
        Ok(mut conn) => write_text(alloc, &mut conn, OWNS_4) && is_moved(alloc, conn),
        Err(_) => false,
    }
}

/// A record in rows with its total in the head is loaded, and migrated by a save.
pub fn rows_of_version_1_are_moved(alloc: Global) -> bool {
    match Connection::open_in_memory(alloc) {
        Ok(mut conn) => write_rows(&mut conn) && is_moved(alloc, conn),
        Err(_) => false,
    }
}

/// What is done to the rows of `OWNS_8` in version 2, so that they are no record.
const DAMAGES: [&str; 12] = [
    "INSERT INTO agent_total VALUES ('disk', 0)",
    "INSERT INTO agent_total VALUES ('disk', -1)",
    "INSERT INTO agent_total VALUES ('disk', 1099511627777)",
    "INSERT INTO agent_total VALUES ('disk', 'many')",
    "INSERT INTO agent_total VALUES ('a b', 1)",
    "INSERT INTO agent_total VALUES ('', 1)",
    "INSERT INTO agent_total VALUES (NULL, 1)",
    "INSERT INTO agent_total VALUES ('a', 1), ('b', 1), ('c', 1), ('d', 1), ('e', 1), ('f', 1), ('g', 1)",
    r#"UPDATE agent_head SET total = '{"cpus":8,"mem":8192}'"#,
    r#"UPDATE agent_head SET total = '{"cpus":8,"mem":8192}', version = 1"#,
    "UPDATE agent_head SET version = 3",
    "DELETE FROM agent_head; DELETE FROM agent_task",
];

/// What a keeper loads over the rows of `OWNS_8` in version 2, once this was done to them.
/// None where they weren't written.
fn damaged<S: Alter + Drop>(
    alloc: Global,
    conn: Connection<S>,
    damage: &str,
) -> Option<Result<Option<usize>, KeepFault>> {
    let mut keeper = Keeper::adopt(conn).ok()?;
    if !save(alloc, &mut keeper, OWNS_8) {
        return None;
    }
    let mut conn = keeper.into_connection();
    conn.execute_batch(damage).ok()?;
    let mut keeper = Keeper::adopt(conn).ok()?;
    Some(load(alloc, &mut keeper, &[OWNS_8]))
}

fn is_refused(alloc: Global, damage: &str) -> bool {
    match Connection::open_in_memory(alloc) {
        Ok(conn) => damaged(alloc, conn, damage) == Some(Err(KeepFault::Damaged)),
        Err(_) => false,
    }
}

/// Rows that are no record are K2.
pub fn rows_that_do_not_fit_are_refused(alloc: Global) -> bool {
    DAMAGES.iter().all(|damage| is_refused(alloc, damage))
}
