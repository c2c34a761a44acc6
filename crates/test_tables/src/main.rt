//! Answers the lines of its input: after the word `named` a call by its name and arguments
//! (`books`), else a kind and a text (`text_cases`). The lines after a line `history` are those
//! of a replay, which is run to its end (`marked_steps`). The status is 0; 2 where a line of that
//! replay is refused (X1, X2, X3); 3 where memory is refused to anything but a step of it, or the
//! input or the output fails.
#![tactic(auto)]

mod books;
mod marked_steps;
mod text_cases;

use crate::books::Cases;
use frame_record::put;
use marked_steps::{Stop, run_history};
use std::alloc::{AllocError, Global};
use std::io;
use std::process::ExitCode;

/// What answers lines.
trait Table {
    fn answer(&mut self, alloc: Global, line: &str) -> Result<String, AllocError>;
}

impl Table for Cases {
    fn answer(&mut self, alloc: Global, line: &str) -> Result<String, AllocError> {
        match line.strip_prefix("named ") {
            Some(call) => Ok(crate::books::answer(self, alloc, call)),
            None => text_cases::answer(alloc, line),
        }
    }
}

fn print_answer<T: Table>(rt: &HostRuntime, table: &mut T, line: &str) -> io::Result<()> {
    let text = table.answer(rt.alloc(), line)?;
    println!(rt; "{text}")
}

/// Answers the lines of the input before the one that begins a history, and collects those after
/// it. Returns whether there was such a line.
fn answer_lines<T: Table + Drop>(
    rt: &HostRuntime,
    mut table: T,
    history: &mut Vec<String>,
) -> io::Result<bool> {
    let mut is_history = false;
    for line in rt.lines(rt.alloc()) {
        let line = line?;
        if is_history {
            history.push(line)?;
        } else if line.as_str() == "history" {
            is_history = true;
        } else {
            print_answer(rt, &mut table, line.as_str())?;
        }
    }
    Ok(is_history)
}

/// Answers the input, and runs the history at its end, if there is one.
fn run(rt: &HostRuntime) -> Result<(), Stop> {
    let mut history = Vec::new(rt.alloc());
    if answer_lines(rt, Cases::new(rt.alloc()), &mut history)? {
        let text = run_history(rt.alloc(), &history)?;
        put(&mut rt.stdout(), &text)?;
    }
    Ok(())
}

fn main(rt: HostRuntime) -> ExitCode {
    match run(&rt) {
        Ok(()) => ExitCode::SUCCESS,
        Err(stop) => {
            let _ = eprintln!(rt; "{stop}");
            ExitCode::from(stop.status())
        }
    }
}
