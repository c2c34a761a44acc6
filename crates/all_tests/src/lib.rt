//! Each test of the crates of tests, which are libraries:
//! so what they depend on is built once for all of them.
#![tactic(auto)]

#[cfg(test)]
mod of_activity_tests;
#[cfg(test)]
mod of_cluster_tests;
#[cfg(test)]
mod of_commands;
#[cfg(test)]
mod of_office_tests;
#[cfg(test)]
mod of_one_master;
#[cfg(test)]
mod of_requests;
#[cfg(test)]
mod of_store_tests;
#[cfg(test)]
mod of_thread_tests;
