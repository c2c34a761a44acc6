//! Tests of an office with its HTTP endpoint, over loopback,
//! each a function that returns whether it passed.
#![tactic(auto)]

mod client;
mod full;
mod gate;
mod of_office_bench;
mod requests;
mod scripts;
mod served;
mod threads;

pub use of_office_bench::{
    a_history_is_full, a_master_stops, a_stream_never_opened, a_subscription_ends_with_the_office,
    no_master_is_up, no_seat_is_left, two_calls_overlap,
};
pub use threads::{
    a_call_in_another_group, a_foreign_receipt, a_waiting_call, connections_in_memory, faults,
    refused_steps, texts, two_connections_overlap,
};
