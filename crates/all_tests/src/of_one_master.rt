//! Connections over HTTP to one master.

use std::test::*;
use test_input as tests;

#[test]
fn a_framework_fails_over(rt: HostRuntime) {
    assert!(rt; tests::a_framework_fails_over(rt.alloc()));
}

#[test]
fn a_call_without_its_stream(rt: HostRuntime) {
    assert!(rt; tests::a_call_without_its_stream(rt.alloc()));
}

#[test]
fn an_end_in_each_place(rt: HostRuntime) {
    assert!(rt; tests::an_end_in_each_place(rt.alloc()));
}

#[test]
fn at_most_64_fields(rt: HostRuntime) {
    assert!(rt; tests::at_most_64_fields(rt.alloc()));
}

#[test]
fn at_most_16384_bytes_of_a_head(rt: HostRuntime) {
    assert!(rt; tests::at_most_16384_bytes_of_a_head(rt.alloc()));
}

#[test]
fn a_body_that_is_too_long_is_not_read(rt: HostRuntime) {
    assert!(rt; tests::a_body_that_is_too_long_is_not_read(rt.alloc()));
}
