//! Stores as keepers of version 1 left them: with a record as one text,
//! and with a total in its head.

use sqlite::{Alter, Connection, params};
use std::alloc::Global;

/// The tables of a store that keeps a record as one text, with run 1 assigned.
const TABLES_OF_TEXT: &str =
    "CREATE TABLE agent_record (id INTEGER PRIMARY KEY CHECK (id = 1), body TEXT NOT NULL);
CREATE TABLE run_number (id INTEGER PRIMARY KEY CHECK (id = 1), last INTEGER NOT NULL);
INSERT INTO run_number (id, last) VALUES (1, 1)";

/// The two tables that a store has beside them which keeps a record in rows,
/// with its total in the head.
const TABLES_OF_ROWS: &str =
    "CREATE TABLE agent_head (id INTEGER PRIMARY KEY CHECK (id = 1), name TEXT NOT NULL, run INTEGER NOT NULL, session INTEGER NOT NULL, total TEXT NOT NULL, version INTEGER NOT NULL);
CREATE TABLE agent_task (run INTEGER NOT NULL, n INTEGER NOT NULL, body TEXT NOT NULL, PRIMARY KEY (run, n))";

/// The rows of `OWNS_4`: a task's rowid is its run * 2^32 and its number.
const ROWS_OF_OWNS_4: &str =
    r#"INSERT INTO agent_head VALUES (1, 'a1', 1, 1, '{"cpus":4,"mem":4096}', 1);
INSERT INTO agent_task (rowid, run, n, body) VALUES (4294967297, 1, 1, '{"acked":0,"framework":"F1-1","key":"L1-1","name":"t1","offers":["O1-1"],"resources":{"cpus":2,"mem":1024},"updates":[]}')"#;

/// A record's text in version 1, which stores had that kept it as one text.
fn first_version(alloc: Global, text: &str) -> Option<String> {
    let front = text.strip_suffix("2}")?;
    format!(in alloc; "{front}1}}").ok()
}

/// Whether a record was kept as one text, by its text in version 2.
pub fn write_text<S: Alter>(alloc: Global, conn: &mut Connection<S>, text: &str) -> bool {
    let insert = "INSERT INTO agent_record (id, body) VALUES (1, ?1)";
    let Some(text) = first_version(alloc, text) else {
        return false;
    };
    conn.execute_batch(TABLES_OF_TEXT).is_ok()
        && conn.execute(insert, params![text.as_str()]).is_ok()
}

/// Whether the rows of `OWNS_4` were written, with its total in the head.
pub fn write_rows<S: Alter>(conn: &mut Connection<S>) -> bool {
    conn.execute_batch(TABLES_OF_TEXT).is_ok()
        && conn.execute_batch(TABLES_OF_ROWS).is_ok()
        && conn.execute_batch(ROWS_OF_OWNS_4).is_ok()
}
