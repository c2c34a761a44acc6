//! Records as texts, and what a keeper makes of them.

use agent_core::Record;
use event_json::{record_of, record_text};
use keep_store::{KeepFault, Keeper};
use sqlite::Alter;
use std::alloc::Global;

/// Agent a1 in session 1, with no task.
pub const SESSION_1: &str =
    r#"{"name":"a1","run":1,"session":1,"tasks":[],"total":{},"version":2}"#;

/// It in session 2.
pub const SESSION_2: &str =
    r#"{"name":"a1","run":1,"session":2,"tasks":[],"total":{},"version":2}"#;

/// It with three tasks, in session 101.
pub const TASKS: &str =
    r#"{"name":"a1","run":1,"session":101,"tasks":[{"acked":1,"framework":"F1-1","key":"L1-1","name":"t1","offers":["O1-1"],"resources":{"cpus":1},"updates":["TASK_RUNNING"]},{"acked":0,"framework":"F1-1","key":"L1-2","name":"t2","offers":["O1-1"],"resources":{"cpus":1},"updates":["TASK_RUNNING"]},{"acked":0,"framework":"F1-2","key":"L1-3","name":"t3","offers":["O1-2","O1-3"],"resources":{"cpus":1,"mem":64},"updates":[]}],"total":{"cpus":4,"mem":64},"version":2}"#;

/// The same first task, the second with an update more, no third, and a new one of the next run,
/// in the last session that there is.
pub const OTHER_TASKS: &str =
    r#"{"name":"a1","run":2,"session":4294967295,"tasks":[{"acked":1,"framework":"F1-1","key":"L1-1","name":"t1","offers":["O1-1"],"resources":{"cpus":1},"updates":["TASK_RUNNING"]},{"acked":0,"framework":"F1-1","key":"L1-2","name":"t2","offers":["O1-1"],"resources":{"cpus":1},"updates":["TASK_RUNNING","TASK_FINISHED"]},{"acked":0,"framework":"F1-1","key":"L2-1","name":"t4","offers":["O2-1"],"resources":{"cpus":2},"updates":[]}],"total":{"cpus":8},"version":2}"#;

/// It in session 1 with a task of which nothing was reported yet, on cpus 4 and mem 4096.
pub const OWNS_4: &str =
    r#"{"name":"a1","run":1,"session":1,"tasks":[{"acked":0,"framework":"F1-1","key":"L1-1","name":"t1","offers":["O1-1"],"resources":{"cpus":2,"mem":1024},"updates":[]}],"total":{"cpus":4,"mem":4096},"version":2}"#;

/// The same on cpus 8 and mem 8192.
pub const OWNS_8: &str =
    r#"{"name":"a1","run":1,"session":1,"tasks":[{"acked":0,"framework":"F1-1","key":"L1-1","name":"t1","offers":["O1-1"],"resources":{"cpus":2,"mem":1024},"updates":[]}],"total":{"cpus":8,"mem":8192},"version":2}"#;

// What is made of a keeper is in functions that have it by reference and have no clause: so the
// proof of a test includes neither what a keeper owns nor the state of each call.
fn record(alloc: Global, text: &str) -> Option<Record> {
    Record::of(alloc, record_of(alloc, text).ok()?).ok()?
}

/// Whether the record of a text was saved.
pub fn save<S: Alter>(alloc: Global, keeper: &mut Keeper<S>, text: &str) -> bool {
    match record(alloc, text) {
        Some(record) => keeper.save(alloc, &record).is_ok(),
        None => false,
    }
}

/// The place of a text among these, from 1.
fn place(texts: &[&str], text: &str) -> Option<usize> {
    Some(texts.iter().position(|other| *other == text)? + 1)
}

/// The place of a record's text among these, from 1.
fn place_of(alloc: Global, texts: &[&str], record: &Record) -> Option<usize> {
    match record_text(alloc, record.parts()) {
        Ok(text) => place(texts, text.as_str()),
        Err(_) => None,
    }
}

/// The place among these texts, from 1, of that of the record that is kept as a whole;
/// 0 where there is no record, None where it is another.
pub fn load<S: Alter>(
    alloc: Global,
    keeper: &mut Keeper<S>,
    texts: &[&str],
) -> Result<Option<usize>, KeepFault> {
    match keeper.load(alloc)? {
        Some(record) => Ok(place_of(alloc, texts, &record)),
        None => Ok(Some(0)),
    }
}
