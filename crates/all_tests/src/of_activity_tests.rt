//! Activities.

use std::test::*;
use test_agents as tests;

#[test]
fn the_old_record_stands(rt: HostRuntime) {
    assert!(rt; tests::the_old_record_stands(&rt, rt.alloc()));
}

#[test]
fn another_record_stands(rt: HostRuntime) {
    assert!(rt; tests::another_record_stands(&rt, rt.alloc()));
}

#[test]
fn another_record_alone(rt: HostRuntime) {
    assert!(rt; tests::another_record_alone(&rt, rt.alloc()));
}

#[test]
fn an_outage_is_borne(rt: HostRuntime) {
    assert!(rt; tests::an_outage_is_borne(&rt, rt.alloc()));
}

#[test]
fn an_outage_is_fatal(rt: HostRuntime) {
    assert!(rt; tests::an_outage_is_fatal(&rt, rt.alloc()));
}

#[test]
fn the_new_record_stands(rt: HostRuntime) {
    assert!(rt; tests::the_new_record_stands(&rt, rt.alloc()));
}

#[test]
fn two_saves_overlap(rt: HostRuntime) {
    assert!(rt; tests::two_saves_overlap(&rt, rt.alloc()));
}

#[test]
fn two_rounds(rt: HostRuntime) {
    assert!(rt; tests::two_rounds(&rt, rt.alloc()));
}

#[test]
fn an_unknown_agent(rt: HostRuntime) {
    assert!(rt; tests::an_unknown_agent(&rt, rt.alloc()));
}

#[test]
fn what_is_unacknowledged_goes_first(rt: HostRuntime) {
    assert!(rt; tests::what_is_unacknowledged_goes_first(&rt, rt.alloc()));
}

#[test]
fn a_stop_in_a_save(rt: HostRuntime) {
    assert!(rt; tests::a_stop_in_a_save(&rt, rt.alloc()));
}

#[test]
fn an_agent_down_at_a_commit(rt: HostRuntime) {
    assert!(rt; tests::an_agent_down_at_a_commit(&rt, rt.alloc()));
}

#[test]
fn an_agent_down_at_a_prepare(rt: HostRuntime) {
    assert!(rt; tests::an_agent_down_at_a_prepare(&rt, rt.alloc()));
}

#[test]
fn a_larger_total(rt: HostRuntime) {
    assert!(rt; tests::a_larger_total(&rt, rt.alloc()));
}

#[test]
fn a_journal_stops_in_a_launch(rt: HostRuntime) {
    assert!(rt; tests::a_journal_stops_in_a_launch(&rt, rt.alloc(), false));
}

#[test]
fn a_journal_stops_in_a_launch_and_loses(rt: HostRuntime) {
    assert!(rt; tests::a_journal_stops_in_a_launch(&rt, rt.alloc(), true));
}

#[test]
fn a_database_file_stops_in_a_launch(rt: HostRuntime) {
    assert!(rt; tests::a_database_file_stops_in_a_launch(&rt, rt.alloc(), false));
}

#[test]
fn a_database_file_stops_in_a_launch_and_loses(rt: HostRuntime) {
    assert!(rt; tests::a_database_file_stops_in_a_launch(&rt, rt.alloc(), true));
}
