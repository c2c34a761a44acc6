//! Says of a line, a call by its name and arguments, what the call answers: of a book of offers and
//! tasks, shares, sessions, a configuration and an agent over a chosen record. The program makes
//! these calls otherwise, or never with these arguments, so that no history shows them.

mod agents;
mod answers;
mod books;
mod cases;
mod configs;
mod sessions;
mod shares;
mod words;

pub use cases::{Cases, answer};
