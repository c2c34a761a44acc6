//! The lines that a replay prints: of each entry of a history, and at its end.

mod ends;
mod entry;
mod line;
mod words;

pub use ends::{agent_text, entries_text};
pub use entry::{entry_text, opening_text, refused_text};
