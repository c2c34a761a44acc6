use call_replies::calls;
use std::alloc::Global;
use std::io::{self, Read, Write};

const SUBSCRIBE: &[u8] =
    b"75\n{\"type\":\"SUBSCRIBE\",\"subscribe\":{\"framework_info\":{\"user\":\"u\",\"name\":\"n\"}}}";

const SUBSCRIBED: &[u8] =
    b"100\n{\"subscribed\":{\"framework_id\":{\"value\":\"F1-1\"},\"heartbeat_interval_seconds\":15},\"type\":\"SUBSCRIBED\"}";

const SUBSCRIBE_AGAIN: &[u8] =
    b"97\n{\"type\":\"SUBSCRIBE\",\"subscribe\":{\"framework_info\":{\"user\":\"u\",\"name\":\"n\",\"id\":{\"value\":\"F1-1\"}}}}";

const SUBSCRIBE_TWICE: &[u8] =
    b"75\n{\"type\":\"SUBSCRIBE\",\"subscribe\":{\"framework_info\":{\"user\":\"u\",\"name\":\"n\"}}}75\n{\"type\":\"SUBSCRIBE\",\"subscribe\":{\"framework_info\":{\"user\":\"u\",\"name\":\"n\"}}}";

/// What is written last: a framework more is refused,
/// one that subscribes again receives an ERROR event on its stream and has another.
const LIMITED: &[u8] =
    b"55\n{\"error\":{\"message\":\"M4 LimitExceeded\"},\"type\":\"ERROR\"}60\n{\"error\":{\"message\":\"Framework failed over\"},\"type\":\"ERROR\"}100\n{\"subscribed\":{\"framework_id\":{\"value\":\"F1-1\"},\"heartbeat_interval_seconds\":15},\"type\":\"SUBSCRIBED\"}";

fn push_often(input: &mut Vec<u8>, part: &[u8], count: u32) -> Option<()> {
    for _ in 0..count {
        input.extend_from_slice(part).ok()?;
    }
    Some(())
}

/// As many frameworks as there may be, one more, and one of them again.
fn too_many(alloc: Global) -> Option<Vec<u8>> {
    let mut input = Vec::new(alloc);
    push_often(&mut input, SUBSCRIBE, 4097)?;
    push_often(&mut input, SUBSCRIBE_AGAIN, 1)?;
    Some(input)
}

/// Whether the output for this input ends so.
fn ends_with(alloc: Global, input: &[u8], end: &[u8]) -> bool {
    let mut reader = input;
    let mut written = Vec::new(alloc);
    match calls(alloc, &mut reader, &mut written) {
        Ok(None) => written.as_slice().ends_with(end),
        _ => false,
    }
}

pub fn frameworks_are_limited(alloc: Global) -> bool {
    match too_many(alloc) {
        Some(input) => ends_with(alloc, &input, LIMITED),
        None => false,
    }
}

/// A reader that returns a byte at a time, and fails after so many.
#[derive(Drop)]
struct Slow<'a> {
    left: &'a [u8],
    reads: usize,
}

impl Read for Slow<'_> {
    fn read(&mut self, buf: &mut [u8]) -> io::Result<usize> {
        if self.reads == 0 {
            return Err(io::Error::from(io::ErrorKind::Other));
        }
        self.reads -= 1;
        if let ([first, rest @ ..], [place, ..]) = (self.left, buf) {
            *place = *first;
            self.left = rest;
            return Ok(1);
        }
        Ok(0)
    }
}

/// A writer that takes three bytes at a time, and fails once it has so many.
#[derive(Drop)]
struct Full {
    text: Vec<u8>,
    room: usize,
}

impl Write for Full {
    fn write(&mut self, buf: &[u8]) -> io::Result<usize> {
        let count = buf
            .len()
            .min(3)
            .min(self.room.saturating_sub(self.text.len()));
        if count == 0 {
            return Err(io::Error::from(io::ErrorKind::Other));
        }
        self.text.extend_from_slice(&buf[..count])?;
        Ok(count)
    }

    fn flush(&mut self) -> io::Result<()> {
        Ok(())
    }
}

/// The second call isn't whole where the read fails.
pub fn where_a_read_fails_a_beginning_was_written(alloc: Global) -> bool {
    let mut reader = Slow {
        left: SUBSCRIBE_TWICE,
        reads: 80,
    };
    let mut written = Vec::new(alloc);
    calls(alloc, &mut reader, &mut written).is_err() && written.as_slice() == SUBSCRIBED
}

pub fn where_a_write_fails_a_beginning_was_written(alloc: Global) -> bool {
    let mut reader = SUBSCRIBE;
    let mut writer = Full {
        text: Vec::new(alloc),
        room: 10,
    };
    calls(alloc, &mut reader, &mut writer).is_err() && writer.text.as_slice() == &SUBSCRIBED[..10]
}
