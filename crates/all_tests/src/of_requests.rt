//! Requests and connections.

use std::test::*;
use test_input as tests;

#[test]
fn heads(rt: HostRuntime) {
    assert!(rt; tests::heads(rt.alloc()));
}

#[test]
fn bodies(rt: HostRuntime) {
    assert!(rt; tests::bodies(rt.alloc()));
}

#[test]
fn a_stream(rt: HostRuntime) {
    assert!(rt; tests::a_stream(rt.alloc()));
}

#[test]
fn a_link_may_fail_anywhere(rt: HostRuntime) {
    assert!(rt; tests::a_link_may_fail_anywhere(rt.alloc()));
}

#[test]
fn heads_are_refused_in_order(rt: HostRuntime) {
    assert!(rt; tests::heads_are_refused_in_order());
}

#[test]
fn length_fields_are_judged(rt: HostRuntime) {
    assert!(rt; tests::length_fields_are_judged(rt.alloc()));
}

#[test]
fn the_first_of_other_fields_counts(rt: HostRuntime) {
    assert!(rt; tests::the_first_of_other_fields_counts(rt.alloc()));
}

#[test]
fn parts_are_cut(rt: HostRuntime) {
    assert!(rt; tests::parts_are_cut());
}

#[test]
fn chunk_lines_and_trailers(rt: HostRuntime) {
    assert!(rt; tests::chunk_lines_and_trailers());
}

#[test]
fn refusals(rt: HostRuntime) {
    assert!(rt; tests::refusals(rt.alloc()));
}

#[test]
fn a_stream_opens(rt: HostRuntime) {
    assert!(rt; tests::a_stream_opens(rt.alloc()));
}

#[test]
fn sizes_of_a_chunk(rt: HostRuntime) {
    assert!(rt; tests::sizes_of_a_chunk(rt.alloc()));
}
