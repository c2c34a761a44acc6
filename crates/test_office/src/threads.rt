//! Tests over several threads, each a function that returns whether it passed: callers of one desk,
//! and connections that are served at once.

mod of_desk_lock;
mod of_http_workers;

pub use of_desk_lock::{
    a_call_in_another_group, a_foreign_receipt, a_waiting_call, refused_steps, texts,
};
pub use of_http_workers::{connections_in_memory, faults, two_connections_overlap};
