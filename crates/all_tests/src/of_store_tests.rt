//! Records in stores.

use std::test::*;
use test_store as tests;

#[test]
fn the_last_saved_is_loaded(rt: HostRuntime) {
    assert!(rt; tests::the_last_saved_is_loaded(rt.alloc()));
}

#[test]
fn a_journal_stops(rt: HostRuntime) {
    assert!(rt; tests::a_journal_stops(rt.alloc()));
}

#[test]
fn a_database_file_stops(rt: HostRuntime) {
    assert!(rt; tests::a_database_file_stops(rt.alloc()));
}

#[test]
fn a_journal_stops_in_a_first_save(rt: HostRuntime) {
    assert!(rt; tests::a_journal_stops_in_a_first_save(rt.alloc()));
}

#[test]
fn a_database_file_stops_in_a_first_save(rt: HostRuntime) {
    assert!(rt; tests::a_database_file_stops_in_a_first_save(rt.alloc()));
}

#[test]
fn a_journal_stops_among_tasks(rt: HostRuntime) {
    assert!(rt; tests::a_journal_stops_among_tasks(rt.alloc()));
}

#[test]
fn a_database_file_stops_among_tasks(rt: HostRuntime) {
    assert!(rt; tests::a_database_file_stops_among_tasks(rt.alloc()));
}

#[test]
fn a_journal_stops_in_two_saves(rt: HostRuntime) {
    assert!(rt; tests::a_journal_stops_in_two_saves(rt.alloc()));
}

#[test]
fn a_database_file_stops_in_two_saves(rt: HostRuntime) {
    assert!(rt; tests::a_database_file_stops_in_two_saves(rt.alloc()));
}

#[test]
fn a_journal_stops_behind_a_text(rt: HostRuntime) {
    assert!(rt; tests::a_journal_stops_behind_a_text(rt.alloc()));
}

#[test]
fn a_database_file_stops_behind_a_text(rt: HostRuntime) {
    assert!(rt; tests::a_database_file_stops_behind_a_text(rt.alloc()));
}

#[test]
fn a_text_is_moved(rt: HostRuntime) {
    assert!(rt; tests::a_text_is_moved(rt.alloc()));
}

#[test]
fn rows_of_version_1_are_moved(rt: HostRuntime) {
    assert!(rt; tests::rows_of_version_1_are_moved(rt.alloc()));
}

#[test]
fn rows_that_do_not_fit_are_refused(rt: HostRuntime) {
    assert!(rt; tests::rows_that_do_not_fit_are_refused(rt.alloc()));
}

#[test]
fn a_journal_stops_behind_rows(rt: HostRuntime) {
    assert!(rt; tests::a_journal_stops_behind_rows(rt.alloc()));
}

#[test]
fn a_database_file_stops_behind_rows(rt: HostRuntime) {
    assert!(rt; tests::a_database_file_stops_behind_rows(rt.alloc()));
}

#[test]
fn a_journal_stops_in_a_rise(rt: HostRuntime) {
    assert!(rt; tests::a_journal_stops_in_a_rise(rt.alloc()));
}

#[test]
fn a_database_file_stops_in_a_rise(rt: HostRuntime) {
    assert!(rt; tests::a_database_file_stops_in_a_rise(rt.alloc()));
}
