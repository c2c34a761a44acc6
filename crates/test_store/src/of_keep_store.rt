//! A keeper over a store in memory: what is saved is loaded, and runs are counted.
//! What is no record, and what is no run, is in files of `tests/serve`.

use crate::records::{OTHER_TASKS, TASKS, load, save};
use keep_store::{KeepFault, Keeper};
use sqlite::{Alter, Connection};
use std::alloc::Global;

/// Which of the two records is kept, 0 where there is none.
type Found = Result<Option<usize>, KeepFault>;

/// What a keeper loads, the runs that it assigns, and what it loads then.
type Answers = (
    Found,
    (Result<u32, KeepFault>, Result<u32, KeepFault>),
    Found,
);

fn found<S: Alter>(keeper: &mut Keeper<S>, alloc: Global) -> Found {
    load(alloc, keeper, &[TASKS, OTHER_TASKS])
}

fn answers<S: Alter>(keeper: &mut Keeper<S>, alloc: Global) -> Answers {
    let before = found(keeper, alloc);
    let runs = (keeper.next_run(), keeper.next_run());
    (before, runs, found(keeper, alloc))
}

/// What a new keeper answers, and the same one once it saved two records.
fn answers_around_saves<S: Alter>(
    keeper: &mut Keeper<S>,
    alloc: Global,
) -> Option<(Answers, Answers)> {
    let new = answers(keeper, alloc);
    if save(alloc, keeper, TASKS) && save(alloc, keeper, OTHER_TASKS) {
        Some((new, answers(keeper, alloc)))
    } else {
        None
    }
}

fn adopted<S: Alter + Drop>(conn: Connection<S>) -> Option<Keeper<S>> {
    Keeper::adopt(conn).ok()
}

/// What a keeper answers that is adopted again after another.
fn answers_when_adopted<S: Alter + Drop>(keeper: Keeper<S>, alloc: Global) -> Option<Answers> {
    let mut again = adopted(keeper.into_connection())?;
    Some(answers(&mut again, alloc))
}

/// What a keeper answers that is new, that has saved, and that is adopted again.
fn all_answers<S: Alter + Drop>(
    conn: Connection<S>,
    alloc: Global,
) -> Option<(Answers, Answers, Answers)> {
    let mut keeper = adopted(conn)?;
    let (new, saved) = answers_around_saves(&mut keeper, alloc)?;
    let again = answers_when_adopted(keeper, alloc)?;
    Some((new, saved, again))
}

fn all_answers_in_memory(alloc: Global) -> Option<(Answers, Answers, Answers)> {
    match Connection::open_in_memory(alloc) {
        Ok(conn) => all_answers(conn, alloc),
        Err(_) => None,
    }
}

const NEW: Answers = (Ok(Some(0)), (Ok(1), Ok(2)), Ok(Some(0)));

const SAVED: Answers = (Ok(Some(2)), (Ok(3), Ok(4)), Ok(Some(2)));

const AGAIN: Answers = (Ok(Some(2)), (Ok(5), Ok(6)), Ok(Some(2)));

/// What was saved last is what is loaded, also after a reopening.
pub fn the_last_saved_is_loaded(alloc: Global) -> bool {
    all_answers_in_memory(alloc) == Some((NEW, SAVED, AGAIN))
}
