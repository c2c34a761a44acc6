//! An inlet and an outlet in memory.

ghost use Rattle.std.specs.Prelude.{◌≡◌, ℕ, ◌+◌, ◌<◌, ◌≤◌, List, [], ◌∷◌, ◌++◌, length, drop, vec_len};
ghost use Rattle.http_door.specs.Memory.{SourceReads, SinkWrites, has_ended, source_faults, sink_faults, source_reads_nothing, source_reads_more, sink_writes_nothing, sink_writes_more};

use crate::outlet::Outlet;
use http_head::{Inlet, Section};

/// Removes the first bytes.
fn drop_front(bytes: &mut Vec<u8>, count: usize)
    requires { count ≤ vec_len bytes.old }
    ensures { bytes.new.items ≡ drop count bytes.old.items }
{
    let left = bytes.len() - count;
    bytes.rotate_left(count);
    bytes.truncate(left);
}

/// Returns its bytes at most `most` at a time, or one where that is 0, and fails once `turns` reads
/// were made.
#[derive(Drop)]
pub struct Source {
    pub bytes: Vec<u8>,
    pub most: usize,
    pub turns: u64,
    pub faults: u64,
}

impl Inlet for Source {
    ghost reads = { SourceReads };

    ghost ended = { has_ended };

    ghost faults = { source_faults };

    fn read(&mut self, piece: &mut [u8]) -> Option<usize> {
        if self.turns == 0 {
            self.faults += 1;
            return None;
        }
        self.turns -= 1;
        let count = self.bytes.len().min(piece.len()).min(self.most.max(1));
        piece[..count].copy_from_slice(&self.bytes[..count]);
        drop_front(&mut self.bytes, count);
        Some(count)
    }

    fn begin(&mut self, _section: Section, _there: usize) {}

    ghost reads_nothing = { source_reads_nothing };

    ghost reads_more = { source_reads_more };
}

/// Takes bytes at most `most` at a time, and fails once `turns` writes were made,
/// or where memory is refused.
#[derive(Drop)]
pub struct Sink {
    pub bytes: Vec<u8>,
    pub most: usize,
    pub turns: u64,
    pub faults: u64,
}

impl Outlet for Sink {
    ghost writes = { SinkWrites };

    ghost faults = { sink_faults };

    fn write(&mut self, piece: &[u8]) -> Option<usize> {
        let count = piece.len().min(self.most.max(1));
        if self.turns == 0 || self.bytes.extend_from_slice(&piece[..count]).is_err() {
            self.faults += 1;
            return None;
        }
        self.turns -= 1;
        Some(count)
    }

    fn begin_text(&mut self) {}

    ghost writes_nothing = { sink_writes_nothing };

    ghost writes_more = { sink_writes_more };
}
