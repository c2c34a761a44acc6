//! The master's book in tables: agents' totals, current offers and booked tasks (Mesos paper,
//! section 3.1), each found by its id, and what of each total is free.
#![tactic(auto)]

mod account;
mod agents;
mod book;
mod entering;
mod fault;
mod free_part;
mod from_agents;
#[cfg(test)]
mod generated;
mod laws;
mod places;
#[cfg(test)]
mod plain;
#[cfg(test)]
mod tests;
mod withdrawing;

pub use account::AccountAt;
pub use book::OfferBook;
pub use fault::BookFault;
pub use laws::ended_tasks_take_nothing;
pub use offer_book::{Located, OffersAt, TaskUpdate, TasksAt};
