//! A keeper in memory whose database file or whose journal stops working after so many calls: what
//! is found afterwards is the record before or the new one as a whole, and each run is assigned
//! once.

use crate::disks::{Calls, Contents, NO_STOP, calls_of, nothing};
use crate::older_forms::{write_rows, write_text};
use crate::records::{OTHER_TASKS, OWNS_4, OWNS_8, SESSION_1, SESSION_2, TASKS, load, save};
use crate::visits::{OverDisks, Visitor, closed, opened, visit};
use keep_store::Keeper;
use sqlite::{Alter, Connection};
use std::alloc::Global;

/// Texts of records that are kept one after another.
#[derive(Clone, Copy)]
struct Plan<'a> {
    texts: &'a [&'a str],
    /// How many of them were kept before, the last of them still.
    kept: usize,
}

/// What a keeper answered.
#[derive(Clone, Copy)]
struct Answers {
    /// How many of the records were kept, by the one that it loaded.
    found: Option<usize>,
    /// How many of them were kept, by those that it answered to have saved.
    saved: usize,
    /// Which run it assigned.
    run: Option<u32>,
}

/// How many of the records were kept once the others are saved, until one is refused.
fn save_others<S: Alter>(alloc: Global, keeper: &mut Keeper<S>, plan: Plan<'_>) -> usize {
    for (at, text) in plan.texts.iter().enumerate().skip(plan.kept) {
        if !save(alloc, keeper, text) {
            return at;
        }
    }
    plan.texts.len()
}

/// What the keeper answers to a load, to saves of the other records,
/// and to a call for the next run.
fn answers_of<S: Alter>(alloc: Global, keeper: &mut Keeper<S>, plan: Plan<'_>) -> Answers {
    Answers {
        found: load(alloc, keeper, plan.texts).unwrap_or(None),
        saved: save_others(alloc, keeper, plan),
        run: keeper.next_run().ok(),
    }
}

/// A keeper answers what a plan asks; before, it answers nothing.
#[derive(Drop)]
struct Asking<'a> {
    plan: Plan<'a>,
    answers: Answers,
}

impl<'a> Visitor for Asking<'a> {
    fn over<S: OverDisks>(
        &mut self,
        alloc: Global,
        conn: Result<Connection<S>, S::Disks>,
    ) -> S::Disks {
        match opened(conn) {
            Ok(mut keeper) => {
                self.answers = answers_of(alloc, &mut keeper, self.plan);
                closed(keeper)
            }
            Err(left) => left,
        }
    }
}

/// What a keeper over files of these contents answers that stop after so many calls,
/// and what a stop leaves of them.
fn visited_at(
    alloc: Global,
    contents: &Contents,
    calls: Calls,
    plan: Plan<'_>,
    is_lossy: bool,
) -> Option<(Answers, Contents)> {
    let answers = Answers {
        found: None,
        saved: plan.kept,
        run: None,
    };
    let mut asking = Asking { plan, answers };
    match visit(alloc, contents, calls, is_lossy, &mut asking) {
        Some(left) => Some((asking.answers, left)),
        None => None,
    }
}

/// The files in which the record of a text is kept and run 1 was assigned.
fn rows(alloc: Global, text: &str) -> Option<Contents> {
    let plan = Plan {
        texts: &[text],
        kept: 0,
    };
    let (answers, left) = visited_at(alloc, &nothing(alloc), NO_STOP, plan, false)?;
    if answers.saved == 1 && answers.run == Some(1) {
        Some(left)
    } else {
        None
    }
}

/// A store of an older form.
#[derive(Clone, Copy)]
enum Older<'a> {
    /// The record of a text, as one text.
    Text(&'a str),
    /// That of `OWNS_4`, in rows with its total in the head.
    Rows,
}

fn write_older<S: Alter>(alloc: Global, conn: &mut Connection<S>, form: Older<'_>) -> bool {
    match form {
        Older::Text(text) => write_text(alloc, conn, text),
        Older::Rows => write_rows(conn),
    }
}

/// A store of an older form is written, and no keeper is over it.
#[derive(Drop)]
struct Writing<'a> {
    form: Older<'a>,
    is_written: bool,
}

impl<'a> Visitor for Writing<'a> {
    fn over<S: OverDisks>(
        &mut self,
        alloc: Global,
        conn: Result<Connection<S>, S::Disks>,
    ) -> S::Disks {
        match conn {
            Ok(mut conn) => {
                self.is_written = write_older(alloc, &mut conn, self.form);
                conn.into_store().into_disks()
            }
            Err(left) => left,
        }
    }
}

/// The files of a store of an older form, in which run 1 was assigned.
fn older_files(alloc: Global, form: Older<'_>) -> Option<Contents> {
    let is_written = false;
    let mut writing = Writing { form, is_written };
    let left = visit(alloc, &nothing(alloc), NO_STOP, false, &mut writing)?;
    if writing.is_written { Some(left) } else { None }
}

/// The last run that was assigned before: where a record was kept, run 1 was.
fn run_before(plan: Plan<'_>) -> u32 {
    if plan.kept > 0 { 1 } else { 0 }
}

/// The last record that was answered to be saved, or the one after it;
/// and a run above each that was assigned.
fn is_kept(plan: Plan<'_>, told: Answers, found: Answers) -> bool {
    let is_record = found.found == Some(told.saved)
        || found.found == Some(told.saved.saturating_add(1));
    is_record && found.run > Some(told.run.unwrap_or(run_before(plan)))
}

/// What the keepers of two visits answer: over files that stop, and then over what is left of them.
fn answers_around_a_stop(
    alloc: Global,
    start: &Contents,
    plan: Plan<'_>,
    calls: Calls,
    is_lossy: bool,
) -> Option<(Answers, Answers)> {
    let (told, left) = visited_at(alloc, start, calls, plan, is_lossy)?;
    let loads = Plan {
        kept: plan.texts.len(),
        ..plan
    };
    let (found, _) = visited_at(alloc, &left, NO_STOP, loads, false)?;
    Some((told, found))
}

/// Whether all saves and a next run came to their end over files that stop;
/// none where what is found afterwards isn't what is to be kept.
fn is_whole(
    alloc: Global,
    start: &Contents,
    plan: Plan<'_>,
    calls: Calls,
    is_lossy: bool,
) -> Option<bool> {
    let (told, found) = answers_around_a_stop(alloc, start, plan, calls, is_lossy)?;
    if is_kept(plan, told, found) {
        Some(told.saved == plan.texts.len() && told.run.is_some())
    } else {
        None
    }
}

/// At how many calls of the journal, or of the database file, a stop was tried, until none came.
/// None where a stop left neither record or a run was assigned twice, or where there always was a
/// stop.
fn stops_from(
    alloc: Global,
    start: &Contents,
    plan: Plan<'_>,
    is_journal: bool,
    is_lossy: bool,
) -> Option<u64> {
    for calls in 0..1000u64 {
        if is_whole(alloc, start, plan, calls_of(is_journal, calls), is_lossy)? {
            return Some(calls);
        }
    }
    None
}

/// Whether stops of one file were tried, and each left what it may leave.
fn stops_well(alloc: Global, start: Option<Contents>, plan: Plan<'_>, is_journal: bool) -> bool {
    match start {
        Some(start) => {
            stops_from(alloc, &start, plan, is_journal, false) > Some(0)
                && stops_from(alloc, &start, plan, is_journal, true) > Some(0)
        }
        None => false,
    }
}

/// A save and a next run.
fn stops_in_a_save(alloc: Global, is_journal: bool) -> bool {
    let plan = Plan {
        texts: &[SESSION_1, SESSION_2],
        kept: 1,
    };
    stops_well(alloc, rows(alloc, SESSION_1), plan, is_journal)
}

/// A first save, over empty files.
fn stops_in_a_first_save(alloc: Global, is_journal: bool) -> bool {
    let plan = Plan {
        texts: &[TASKS],
        kept: 0,
    };
    stops_well(alloc, Some(nothing(alloc)), plan, is_journal)
}

/// A save of other tasks by a new keeper, which knows no row.
fn stops_among_tasks(alloc: Global, is_journal: bool) -> bool {
    let plan = Plan {
        texts: &[TASKS, OTHER_TASKS],
        kept: 1,
    };
    stops_well(alloc, rows(alloc, TASKS), plan, is_journal)
}

/// A save of tasks and one of other tasks by the same keeper,
/// which writes the rows of those that changed.
fn stops_in_two_saves(alloc: Global, is_journal: bool) -> bool {
    let plan = Plan {
        texts: &[SESSION_1, TASKS, OTHER_TASKS],
        kept: 1,
    };
    stops_well(alloc, rows(alloc, SESSION_1), plan, is_journal)
}

/// A save over a record that is kept as one text.
fn stops_behind_a_text(alloc: Global, is_journal: bool) -> bool {
    let plan = Plan {
        texts: &[TASKS, OTHER_TASKS],
        kept: 1,
    };
    stops_well(
        alloc,
        older_files(alloc, Older::Text(TASKS)),
        plan,
        is_journal,
    )
}

/// A save of a larger total over rows with the total in the head.
fn stops_behind_rows(alloc: Global, is_journal: bool) -> bool {
    let plan = Plan {
        texts: &[OWNS_4, OWNS_8],
        kept: 1,
    };
    stops_well(alloc, older_files(alloc, Older::Rows), plan, is_journal)
}

/// A save of a total and one of a larger total by the same keeper,
/// which writes the head and the rows of the total alone.
fn stops_in_a_rise(alloc: Global, is_journal: bool) -> bool {
    let plan = Plan {
        texts: &[SESSION_1, OWNS_4, OWNS_8],
        kept: 1,
    };
    stops_well(alloc, rows(alloc, SESSION_1), plan, is_journal)
}

/// The journal's file stops at each call.
pub fn a_journal_stops(alloc: Global) -> bool {
    stops_in_a_save(alloc, true)
}

/// The database's file stops at each call.
pub fn a_database_file_stops(alloc: Global) -> bool {
    stops_in_a_save(alloc, false)
}

pub fn a_journal_stops_in_a_first_save(alloc: Global) -> bool {
    stops_in_a_first_save(alloc, true)
}

pub fn a_database_file_stops_in_a_first_save(alloc: Global) -> bool {
    stops_in_a_first_save(alloc, false)
}

pub fn a_journal_stops_among_tasks(alloc: Global) -> bool {
    stops_among_tasks(alloc, true)
}

pub fn a_database_file_stops_among_tasks(alloc: Global) -> bool {
    stops_among_tasks(alloc, false)
}

pub fn a_journal_stops_in_two_saves(alloc: Global) -> bool {
    stops_in_two_saves(alloc, true)
}

pub fn a_database_file_stops_in_two_saves(alloc: Global) -> bool {
    stops_in_two_saves(alloc, false)
}

pub fn a_journal_stops_behind_a_text(alloc: Global) -> bool {
    stops_behind_a_text(alloc, true)
}

pub fn a_database_file_stops_behind_a_text(alloc: Global) -> bool {
    stops_behind_a_text(alloc, false)
}

pub fn a_journal_stops_behind_rows(alloc: Global) -> bool {
    stops_behind_rows(alloc, true)
}

pub fn a_database_file_stops_behind_rows(alloc: Global) -> bool {
    stops_behind_rows(alloc, false)
}

pub fn a_journal_stops_in_a_rise(alloc: Global) -> bool {
    stops_in_a_rise(alloc, true)
}

pub fn a_database_file_stops_in_a_rise(alloc: Global) -> bool {
    stops_in_a_rise(alloc, false)
}
