//! The rows of a store of an agent's record and of the master's last run: the statements that make
//! its tables, read them and change them, and the values in columns and in the rows of a total.

pub mod changes;
mod columns;
mod fault;
pub mod statements;
mod tables;
mod totals;

pub use columns::{amount_at, number_at, text_at};
pub use fault::{KeepFault, corrupt, fault_of};
pub use tables::{Rows, read_rows};
pub use totals::{total_of, write_total};
