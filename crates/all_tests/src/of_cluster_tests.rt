//! Clusters.

use std::test::Fail;
use test_cluster as tests;

#[test]
fn what_was_put_can_be_handed_out(rt: HostRuntime) {
    assert!(rt; tests::what_was_put_can_be_handed_out(rt.alloc()));
}

#[test]
fn a_call_is_handed_out_once(rt: HostRuntime) {
    assert!(rt; tests::a_call_is_handed_out_once(rt.alloc()));
}

#[test]
fn mails_are_handed_out_in_the_order_of_their_queue(rt: HostRuntime) {
    assert!(rt; tests::mails_are_handed_out_in_the_order_of_their_queue(rt.alloc()));
}

#[test]
fn events_wait_on_their_streams_in_order(rt: HostRuntime) {
    assert!(rt; tests::events_wait_on_their_streams_in_order(rt.alloc()));
}

#[test]
fn records_are_a_good_opening(rt: HostRuntime) {
    assert!(rt; tests::records_are_a_good_opening(rt.alloc()));
}

#[test]
fn a_record_is_opened_over(rt: HostRuntime) {
    assert!(rt; tests::a_record_is_opened_over(rt.alloc()));
}

#[test]
fn behind_the_last_run_no_master_serves(rt: HostRuntime) {
    assert!(rt; tests::behind_the_last_run_no_master_serves(rt.alloc()));
}

#[test]
fn a_refused_step_is_passed_over(rt: HostRuntime) {
    assert!(rt; tests::a_refused_step_is_passed_over(rt.alloc()));
}

#[test]
fn two_seats_have_their_entries(rt: HostRuntime) {
    assert!(rt; tests::two_seats_have_their_entries(&rt, rt.alloc()));
}

#[test]
fn two_threads_of_100_calls(rt: HostRuntime) {
    assert!(rt; tests::two_threads_of_100_calls(&rt, rt.alloc()));
}

/// Prints a line where an agent failed, since no run with ample memory shows it:
/// `tests/refused_allocations/commands.py` looks for it.
#[test]
fn an_agent_that_fell_is_down(rt: HostRuntime) -> Result<(), Fail> {
    let fell = tests::an_agent_that_fell_is_down(rt.alloc());
    if fell == Some(true) {
        println!(rt; "an agent fell")?;
    }
    assert!(rt; fell.is_some());
    Ok(())
}

#[test]
fn generated_shares_are_as_plain_lists(rt: HostRuntime) {
    assert!(rt; tests::generated_shares_are_as_plain_lists(rt.alloc()));
}
