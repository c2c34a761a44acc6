//! Says of a line, a kind and a text, what that text is read as.
//!
//! An empty line and a line that begins with `#` are answered by themselves. In a text `~LF~`
//! stands for a line feed, and so do `NUL`, `CR`, `US`, `DEL` and `BOM` (the byte order mark) for
//! theirs, and `~COUNT*PART~` for so many copies of a part. The kinds are
//!
//! - `earlier`: whether the first of two launch keys is before the other;
//! - `add`, `plus`, `minus`, `reduce`, `compare`, `amount`: two lists of amounts, or a list and
//!   what is added to it or looked up in it; `compare` says whether the first covers the other, and
//!   whether they are the same;
//! - `frame`: a record's written form; `frames SIZE`: the records of a stream that comes in pieces
//!   of so many bytes; `pulls SIZE`: the same with what each pull took;
//! - `updates`: states of a task and acknowledgements; `issued`, `taken`: the two ends of a link of
//!   commands;
//! - `trim`, `call`, `record`, `step`, `config`, `agents`: texts of calls, of records, of a replay
//!   and of the file of the agents, with all that they are read as; `lists` says how long the lists
//!   of a call are, and `written` writes a record's text again;
//! - `message`, `offered`, `finished`: events whose texts no replay has;
//! - `refusal`: the text of a refusal that no other line meets.

mod amounts;
mod events;
mod frames;
mod lines;
mod marks;
mod refusals;
mod streams;
mod texts;

pub(crate) use lines::answer;
