//! A history, line by line.

use crate::marked_steps::steps::{Mark, take_step};
use crate::marked_steps::stop::Stop;
use cluster_channels::EverSent;
use cluster_core::{Cluster, open_fresh};
use replay_core::end_table;
use std::alloc::{AllocError, Global};
use step_text::{LineRefusal, read_config, read_step};

/// The cluster of agents that never ran which the first line configures.
fn open(alloc: Global, line: &str) -> Result<Cluster<EverSent>, Stop> {
    let config = read_config(alloc, line.as_bytes())?;
    match open_fresh(alloc, config) {
        Ok(cluster) => Ok(cluster),
        Err(_) => Err(Stop::Memory),
    }
}

fn tell_mark(number: u64, mark: Mark, marks: &mut String) -> Result<(), AllocError> {
    let how = mark.as_text();
    writeln!(marks, "marked {number} {how}")
}

/// Takes the step of a line, and adds a line to the marks where it was refused memory. A line of
/// white space is passed over.
fn take_line(
    cluster: &mut Cluster<EverSent>,
    alloc: Global,
    number: u64,
    line: &str,
    marks: &mut String,
) -> Result<(), Stop> {
    if line.trim().is_empty() {
        return Ok(());
    }
    let step = read_step(alloc, line.as_bytes())?;
    if let Some(mark) = take_step(cluster, alloc, step)? {
        tell_mark(number, mark, marks)?;
    }
    Ok(())
}

/// Takes the steps of the lines after the first, and returns a line for each that was refused
/// memory.
fn take_lines(
    cluster: &mut Cluster<EverSent>,
    alloc: Global,
    lines: &[String],
) -> Result<String, Stop> {
    let mut marks = String::new(alloc);
    let mut number = 1_u64;
    for line in lines {
        number = number.saturating_add(1);
        take_line(cluster, alloc, number, line, &mut marks)?;
    }
    Ok(marks)
}

/// The text at the end: the table, and the marked steps.
fn end_text(
    cluster: &Cluster<EverSent>,
    alloc: Global,
    marks: &str,
) -> Result<Vec<u8>, AllocError> {
    let mut text = end_table(alloc, cluster)?;
    text.extend_from_slice(marks.as_bytes())?;
    Ok(text)
}

/// Takes the steps of the lines after the first, and returns the text at the end.
fn run_lines(
    cluster: &mut Cluster<EverSent>,
    alloc: Global,
    lines: &[String],
) -> Result<Vec<u8>, Stop> {
    let marks = take_lines(cluster, alloc, lines)?;
    match end_text(cluster, alloc, &marks) {
        Ok(text) => Ok(text),
        Err(_) => Err(Stop::Memory),
    }
}

/// Runs the history of these lines, and returns the text at its end.
pub(crate) fn run_history(alloc: Global, lines: &[String]) -> Result<Vec<u8>, Stop> {
    let Some((first, rest)) = lines.split_first() else {
        return Err(Stop::Line(LineRefusal::BadConfig));
    };
    let mut cluster = open(alloc, first)?;
    let told = run_lines(&mut cluster, alloc, rest);
    drop(cluster);
    told
}
