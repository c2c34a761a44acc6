//! Commands.

use std::test::*;
use test_input as tests;

#[test]
fn frameworks_are_limited(rt: HostRuntime) {
    assert!(rt; tests::frameworks_are_limited(rt.alloc()));
}

#[test]
fn where_a_read_fails_a_beginning_was_written(rt: HostRuntime) {
    assert!(rt; tests::where_a_read_fails_a_beginning_was_written(rt.alloc()));
}

#[test]
fn where_a_write_fails_a_beginning_was_written(rt: HostRuntime) {
    assert!(rt; tests::where_a_write_fails_a_beginning_was_written(rt.alloc()));
}

#[test]
fn the_command_line_is_read(rt: HostRuntime) {
    assert!(rt; tests::the_command_line_is_read(rt.alloc()));
}

#[test]
fn numbers_have_their_ranges(rt: HostRuntime) {
    assert!(rt; tests::numbers_have_their_ranges(rt.alloc()));
}

#[test]
fn words_are_refused(rt: HostRuntime) {
    assert!(rt; tests::words_are_refused(rt.alloc()));
}

#[test]
fn a_line_may_come_in_pieces(rt: HostRuntime) {
    assert!(rt; tests::a_line_may_come_in_pieces(rt.alloc()));
}

#[test]
fn a_long_line_takes_no_more_memory(rt: HostRuntime) {
    assert!(rt; tests::a_long_line_takes_no_more_memory(rt.alloc()));
}
