//! The record that was read in part.

ghost use Rattle.std.specs.Prelude.{◌≡◌, ◌≤◌, ◌<◌, ◌+◌, ◌-◌, ◌*◌, ◌++◌, ◌↔◌, [], None, Some, length, max, min, take, drop, vec_capacity, IfOk, IfSome, IsTrue, OnOk, MatchOption};
ghost use Rattle.frame_record.specs.Records.{Splits, first, partial};
ghost use Rattle.frame_record.specs.Firsts.{IsPart, IsSizeLine, TakesPartLine, item_of, stop, text_of};

use crate::fault::FrameFault;
use crate::first::{Line, take_line};
use std::alloc::{AllocError, Global};
use std::mem;

/// The size line of a record so far, its size once the line is whole, and its data so far.
#[derive(Drop)]
pub struct Part {
    line: Vec<u8>,
    size: Option<usize>,
    body: Vec<u8>,
}

/// What a reader took from the front of a piece: so many bytes, and the record that they completed
/// or the fault that they showed (`F1` or `F2`), if any.
#[derive(Drop)]
pub struct Pulled {
    pub taken: usize,
    pub item: Option<Vec<u8>>,
    pub fault: Option<FrameFault>,
}

/// Makes room for so many bytes more, where there is none: for twice as many as are kept, if that
/// suffices, and never for more than the size.
fn make_room(kept: &mut Vec<u8>, size: usize, more: usize) -> Result<(), AllocError>
    requires { length kept.old.items + more ≤ size }
    ensures items { kept.new.items ≡ kept.old.items }
    ensures room { OnOk result (length kept.old.items + more ≤ vec_capacity kept.new) }
    // An announced size alone makes no room.
    ensures no_more { vec_capacity kept.new
        ≤ max (vec_capacity kept.old) (min size (2 * (length kept.old.items + more))) }
{
    let needed = kept.len() + more;
    if needed > kept.capacity() {
        let room = needed.max(kept.len().saturating_mul(2)).min(size);
        kept.reserve_exact(room - kept.len())?;
    }
    Ok(())
}

/// Takes data bytes until there are as many as the size says, and returns how many it took.
fn take_data(kept: &mut Vec<u8>, size: usize, piece: &[u8]) -> Result<usize, AllocError>
    requires { length kept.old.items ≤ size }
    ensures taken { IfOk result (λ taken. taken ≤ length piece.now) }
    ensures items { IfOk result (λ taken. kept.new.items ≡ kept.old.items ++ take taken piece.now) }
    ensures within { OnOk result (length kept.new.items ≤ size) }
    ensures all { IfOk result (λ taken. length kept.new.items < size → taken ≡ length piece.now) }
{
    let taken = piece.len().min(size - kept.len());
    make_room(kept, size, taken)?;
    kept.extend_from_slice(&piece[..taken])?;
    Ok(taken)
}

impl Part {
    /// Nothing of a record.
    pub fn new(alloc: Global) -> Part
        ensures part { IsPart result }
        ensures text { text_of result ≡ [] }
    {
        Part {
            line: Vec::new(alloc),
            size: None,
            body: Vec::new(alloc),
        }
    }

    /// Whether nothing of a record was read.
    pub fn is_empty(&self) -> bool
        ensures { IsTrue result ↔ (text_of self.now ≡ []) }
    {
        self.line.is_empty() && self.body.is_empty()
    }

    /// Takes the next bytes of the size line, if that isn't whole.
    fn take_line(&mut self, piece: &[u8]) -> Result<Line, AllocError>
        requires { IsPart self.old }
        ensures { IfOk result (λ line. TakesPartLine self.old piece.now self.new line) }
    {
        match self.size {
            Some(size) => Ok(Line::Whole { taken: 0, size }),
            None => take_line(&mut self.line, piece),
        }
    }

    /// Returns the data where they are whole, and is empty from then on.
    fn finish(&mut self, alloc: Global, size: usize) -> Option<Vec<u8>>
        requires line { IsSizeLine self.old.line.items size }
        requires within { length self.old.body.items ≤ size }
        requires size { self.old.size ≡ Some size }
        ensures splits { Splits (text_of self.old) (item_of result) (text_of self.new) }
        ensures part { IsPart self.new }
        ensures empty { IfSome result (λ item. text_of self.new ≡ []) }
        ensures whole { MatchOption result (length self.old.body.items < size)
            (λ item. length self.old.body.items ≡ size) }
    {
        if self.body.len() < size {
            return None;
        }
        self.line.clear();
        self.size = None;
        Some(mem::replace(&mut self.body, Vec::new(alloc)))
    }

    /// Takes data after a whole size line, which ends at `start` in the piece.
    fn fill(
        &mut self,
        alloc: Global,
        start: usize,
        size: usize,
        piece: &[u8],
    ) -> Result<Pulled, AllocError>
        requires start { start ≤ length piece.now }
        requires line { IsSizeLine self.old.line.items size }
        requires within { length self.old.body.items ≤ size }
        ensures taken { IfOk result (λ pulled.
            (start ≤ pulled.taken) × (pulled.taken ≤ length piece.now)) }
        ensures splits { IfOk result (λ pulled.
            Splits (text_of self.old ++ take (pulled.taken - start) (drop start piece.now))
            (item_of pulled.item) (text_of self.new)) }
        ensures stops { IfOk result (λ pulled. first (text_of self.new) ≡ stop pulled.fault) }
        ensures part { OnOk result (IsPart self.new) }
        ensures item { IfOk result (λ pulled.
            MatchOption pulled.item (pulled.taken ≡ length piece.now)
            (λ item. (text_of self.new ≡ [])
            × (length self.old.body.items < size → start < pulled.taken))) }
        ensures fault { IfOk result (λ pulled. pulled.fault ≡ None) }
    {
        let more = take_data(&mut self.body, size, &piece[start..])?;
        self.size = Some(size);
        let item = self.finish(alloc, size);
        Ok(Pulled {
            taken: start + more,
            item,
            fault: None,
        })
    }

    /// Takes from the front of a piece up to the end of the record or the byte that makes its size
    /// line a fault (`F1` or `F2`), or all of it.
    pub fn pull(&mut self, alloc: Global, piece: &[u8]) -> Result<Pulled, AllocError>
        requires { IsPart self.old }
        ensures taken { IfOk result (λ pulled. pulled.taken ≤ length piece.now) }
        ensures splits { IfOk result (λ pulled.
            Splits (text_of self.old ++ take pulled.taken piece.now)
            (item_of pulled.item) (text_of self.new)) }
        ensures stops { IfOk result (λ pulled. first (text_of self.new) ≡ stop pulled.fault) }
        ensures part { IfOk result (λ pulled. pulled.fault ≡ None → IsPart self.new) }
        ensures item { IfOk result (λ pulled.
            MatchOption pulled.item (pulled.fault ≡ None → pulled.taken ≡ length piece.now)
            (λ item. (text_of self.new ≡ []) × (0 < pulled.taken) × (pulled.fault ≡ None))) }
        ensures last { IfOk result (λ pulled. IfSome pulled.fault (λ fault. (0 < pulled.taken)
            × (first (text_of self.old ++ take (pulled.taken - 1) piece.now) ≡ partial))) }
    {
        match self.take_line(piece)? {
            Line::Partial => Ok(Pulled {
                taken: piece.len(),
                item: None,
                fault: None,
            }),
            Line::Faulty { taken, fault } => Ok(Pulled {
                taken,
                item: None,
                fault: Some(fault),
            }),
            Line::Whole { taken, size } => self.fill(alloc, taken, size, piece),
        }
    }
}
