//! What the words of the program's command line ask for.
#![tactic(auto)]

mod command;
mod options;

pub use command::{Action, command_of, taken_words_ask};
pub use options::ServeOptions;
