//! A history in the lines of the replayer, run to its end, even where memory is refused. A step that
//! is refused memory is marked. The part that fails in it, if one does, is restarted: an agent over
//! its record, a master in the next run. Then the history goes on. The text at its end is the
//! replayer's table, and a line for each marked step: its line's number, from 1, with `refused`
//! where it is no entry and nothing changed, or `fell` where a part failed.

mod history;
mod steps;
mod stop;

pub(crate) use history::run_history;
pub(crate) use stop::Stop;
