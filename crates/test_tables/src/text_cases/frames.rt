//! Records and their written forms.

use frame_record::{FrameFault, Pulled, Reader, encode};
use std::alloc::{AllocError, Global};

/// So many bytes at the front of a longer text are printed.
const TOLD: usize = 20;

/// How many bytes there are, and the text of the first ones.
fn front(bytes: &[u8]) -> (usize, &str) {
    let front = bytes.get(..TOLD).unwrap_or(bytes);
    (bytes.len(), std::str::from_utf8(front).unwrap_or("no text"))
}

/// The written form of a record with this text.
pub(crate) fn frame(alloc: Global, text: &str) -> Result<String, AllocError> {
    match encode(alloc, text.as_bytes()) {
        Ok(written) => format!(in alloc; "{:?}", front(&written)),
        Err(fault) => format!(in alloc; "{fault}"),
    }
}

fn push_records(told: &mut String, records: &[Vec<u8>]) -> Result<(), AllocError> {
    for record in records {
        write!(told, "{:?}, ", front(record))?;
    }
    Ok(())
}

/// Feeds a reader one more piece, and writes the records that it returns.
fn push_fed(
    told: &mut String,
    alloc: Global,
    reader: &mut Reader,
    piece: &[u8],
) -> Result<Option<FrameFault>, FrameFault> {
    let fed = reader.feed(alloc, piece)?;
    push_records(told, &fed.records)?;
    Ok(fed.fault)
}

/// Feeds a reader the text in pieces of this size, and writes the records; returns the answer to
/// the last piece.
fn push_all(
    told: &mut String,
    alloc: Global,
    reader: &mut Reader,
    pieces: (usize, &str),
) -> Result<Option<FrameFault>, FrameFault> {
    let (size, text) = pieces;
    let mut last = None;
    for piece in text.as_bytes().chunks(size.max(1)) {
        last = push_fed(told, alloc, reader, piece)?;
    }
    Ok(last)
}

/// The records of the text after the first word, read in pieces of as many bytes as that word
/// says; then the answers to the last piece and to the end.
pub(crate) fn frames(alloc: Global, text: &str) -> Result<String, AllocError> {
    let (size, text) = text.split_once(' ').unwrap_or((text, ""));
    let size = size.parse().unwrap_or(1);
    let mut reader = Reader::new(alloc);
    let mut told = String::new(alloc);
    let last = push_all(&mut told, alloc, &mut reader, (size, text));
    write!(told, "{:?}", (last, reader.end()))?;
    Ok(told)
}

/// Pulls from a piece until it completes no further record, and writes of each pull how many bytes
/// it took, the record and the fault.
fn push_pulls(
    told: &mut String,
    alloc: Global,
    reader: &mut Reader,
    piece: &[u8],
) -> Result<(), FrameFault> {
    let mut used = 0;
    loop {
        let Pulled { taken, item, fault } = reader.pull(alloc, &piece[used..])?;
        let Some(record) = item else {
            write!(told, "{:?}, ", (taken, "-", fault))?;
            return Ok(());
        };
        write!(told, "{:?}, ", (taken, front(&record), fault))?;
        used += taken;
    }
}

fn push_all_pulls(
    told: &mut String,
    alloc: Global,
    reader: &mut Reader,
    pieces: (usize, &str),
) -> Result<(), FrameFault> {
    let (size, text) = pieces;
    for piece in text.as_bytes().chunks(size.max(1)) {
        push_pulls(told, alloc, reader, piece)?;
    }
    Ok(())
}

/// What is pulled from the text after the first word,
/// which comes in pieces of as many bytes as that word says; then the answer to the end.
pub(crate) fn pulls(alloc: Global, text: &str) -> Result<String, AllocError> {
    let (size, text) = text.split_once(' ').unwrap_or((text, ""));
    let size = size.parse().unwrap_or(1);
    let mut reader = Reader::new(alloc);
    let mut told = String::new(alloc);
    let ran = push_all_pulls(&mut told, alloc, &mut reader, (size, text));
    write!(told, "{:?}", (ran, reader.end()))?;
    Ok(told)
}
