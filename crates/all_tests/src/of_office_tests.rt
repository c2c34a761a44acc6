//! An office with its HTTP endpoint.

use std::test::*;
use test_office as tests;

#[test]
fn a_subscription_ends_with_the_office(rt: HostRuntime) {
    assert!(rt; tests::a_subscription_ends_with_the_office(&rt, rt.alloc()));
}

#[test]
fn a_master_stops(rt: HostRuntime) {
    assert!(rt; tests::a_master_stops(&rt, rt.alloc()));
}

#[test]
fn no_master_is_up(rt: HostRuntime) {
    assert!(rt; tests::no_master_is_up(&rt, rt.alloc()));
}

#[test]
fn two_calls_overlap(rt: HostRuntime) {
    assert!(rt; tests::two_calls_overlap(&rt, rt.alloc()));
}

#[test]
fn no_seat_is_left(rt: HostRuntime) {
    assert!(rt; tests::no_seat_is_left(&rt, rt.alloc()));
}

#[test]
fn a_stream_never_opened(rt: HostRuntime) {
    assert!(rt; tests::a_stream_never_opened(&rt, rt.alloc()));
}

#[test]
fn a_history_is_full(rt: HostRuntime) {
    assert!(rt; tests::a_history_is_full(&rt, rt.alloc()));
}
