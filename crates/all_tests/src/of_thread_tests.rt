//! Several threads.

use std::test::*;
use test_office as tests;

#[test]
fn a_foreign_receipt(rt: HostRuntime) {
    assert!(rt; tests::a_foreign_receipt(rt.alloc()));
}

#[test]
fn a_waiting_call(rt: HostRuntime) {
    assert!(rt; tests::a_waiting_call(&rt, rt.alloc()));
}

#[test]
fn a_call_in_another_group(rt: HostRuntime) {
    assert!(rt; tests::a_call_in_another_group(&rt, rt.alloc()));
}

#[test]
fn refused_steps(rt: HostRuntime) {
    assert!(rt; tests::refused_steps(&rt, rt.alloc()));
}

#[test]
fn texts(rt: HostRuntime) {
    assert!(rt; tests::texts(rt.alloc()));
}

#[test]
fn connections_in_memory(rt: HostRuntime) {
    assert!(rt; tests::connections_in_memory(&rt, rt.alloc()));
}

#[test]
fn faults(rt: HostRuntime) {
    assert!(rt; tests::faults(rt.alloc()));
}

#[test]
fn two_connections_overlap(rt: HostRuntime) {
    assert!(rt; tests::two_connections_overlap(&rt, rt.alloc()));
}
