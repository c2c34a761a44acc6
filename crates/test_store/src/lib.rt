//! Tests of records in stores, each a function that returns whether it passed;
//! and files in memory that stop, for stores that others test.
#![tactic(auto)]

mod disks;
mod of_keep_store;
mod of_keep_store_moves;
mod of_keep_store_stops;
mod older_forms;
mod records;
mod visits;

pub use disks::{Calls, Contents, NO_STOP, calls_of, nothing};
pub use of_keep_store::the_last_saved_is_loaded;
pub use of_keep_store_moves::{
    a_text_is_moved, rows_of_version_1_are_moved, rows_that_do_not_fit_are_refused,
};
pub use of_keep_store_stops::{
    a_database_file_stops, a_database_file_stops_among_tasks, a_database_file_stops_behind_a_text,
    a_database_file_stops_behind_rows, a_database_file_stops_in_a_first_save,
    a_database_file_stops_in_a_rise, a_database_file_stops_in_two_saves, a_journal_stops,
    a_journal_stops_among_tasks, a_journal_stops_behind_a_text, a_journal_stops_behind_rows,
    a_journal_stops_in_a_first_save, a_journal_stops_in_a_rise, a_journal_stops_in_two_saves,
};
pub use visits::{load_at, save_at};
