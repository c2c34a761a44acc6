//! Texts in which marks stand for what is hard to see or long.

use std::alloc::{AllocError, Global};

/// The part that a mark stands for, and how often; an unknown mark stands for nothing.
fn copies(mark: &str) -> (&str, u32) {
    match mark {
        "NUL" => ("\0", 1),
        "LF" => ("\n", 1),
        "CR" => ("\r", 1),
        "US" => ("\u{1f}", 1),
        "DEL" => ("\u{7f}", 1),
        "BOM" => ("\u{feff}", 1),
        _ => match mark.split_once('*') {
            Some((count, part)) => (part, count.parse().unwrap_or(0)),
            None => ("", 0),
        },
    }
}

fn push_copies(text: &mut String, part: &str, count: u32) -> Result<(), AllocError> {
    for _ in 0..count {
        text.push_str(part)?;
    }
    Ok(())
}

/// The text with what each of its marks stands for in the mark's place.
pub(crate) fn unmarked(alloc: Global, marked: &str) -> Result<String, AllocError> {
    let mut text = String::new(alloc);
    let mut is_mark = false;
    for part in marked.split('~') {
        let (part, count) = if is_mark { copies(part) } else { (part, 1) };
        push_copies(&mut text, part, count)?;
        is_mark = !is_mark;
    }
    Ok(text)
}
