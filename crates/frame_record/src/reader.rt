//! A reader that is fed a stream in pieces.

ghost use Rattle.std.specs.Prelude.{◌≡◌, ◌≤◌, ◌<◌, ◌+◌, ◌-◌, ◌++◌, [], List, ℕ, None, Some, Err, length, take, IfOk, IfErr, IfSome, MatchOption};
ghost use Rattle.frame_record.specs.Records.{State, Reads, partial, first, limit, end_of};
ghost use Rattle.frame_record.specs.Firsts.{bodies, item_of};
ghost use Rattle.frame_record.specs.declared.fault.FrameFault.{FrameFault};

use crate::fault::FrameFault;
use crate::part::{Part, Pulled};
use std::alloc::Global;
use std::marker::Model;

/// A reader of a stream. It keeps the record that is not whole yet, or the fault that it met.
#[derive(Drop)]
pub struct Reader {
    part: Part,
    fault: Option<FrameFault>,
}

impl Model for Reader {
    ghost use Rattle.frame_record.specs.Records.{State};
    ghost use Rattle.frame_record.specs.Firsts.{text_of, IsGoing};

    ghost Value = { State };

    ghost view = { λ r. record { rest = text_of r.part; fault = r.fault } };

    ghost invariant = { λ r. IsGoing r.fault r.part };
}

/// What a piece held: the records that it completed, in order, and the fault after them,
/// if one was met (`F1` or `F2`).
#[derive(Drop)]
pub struct Fed {
    pub records: Vec<Vec<u8>>,
    pub fault: Option<FrameFault>,
}

/// What is pulled after a fault: nothing but the fault. `F4` where memory ran out.
fn pulled_after(fault: FrameFault) -> Result<Pulled, FrameFault>
    ensures ok { IfOk result (λ pulled.
        (pulled.taken ≡ 0) × (pulled.item ≡ None) × (pulled.fault ≡ Some fault)) }
    ensures memory { IfErr result (λ e.
        (e ≡ FrameFault.OutOfMemory) × (fault ≡ FrameFault.OutOfMemory)) }
    ensures again { fault ≡ FrameFault.OutOfMemory → result ≡ Err FrameFault.OutOfMemory }
{
    if fault == FrameFault::OutOfMemory {
        return Err(fault);
    }
    Ok(Pulled {
        taken: 0,
        item: None,
        fault: Some(fault),
    })
}

impl Reader {
    /// A reader at the beginning of a stream.
    pub fn new(alloc: Global) -> Reader
        ensures { Reads [] [] result }
    {
        Reader {
            part: Part::new(alloc),
            fault: None,
        }
    }

    /// Takes from the front of the next piece up to the end of the first record or fault, or all of
    /// it, and returns that record or fault (`F1` or `F2`). What it didn't take, the caller passes
    /// again. A fault is returned at the byte that makes it one. `Err` is want of memory (`F4`).
    /// After a fault each later call takes nothing and returns the same one. The time is linear in
    /// the bytes taken, however small the pieces are; data are copied into the record that is
    /// returned, and room for them is made as they come.
    pub fn pull(&mut self, alloc: Global, piece: &[u8]) -> Result<Pulled, FrameFault>
        ensures taken { IfOk result (λ pulled. pulled.taken ≤ length piece.now) }
        // Over any pieces, the records are those of the whole text, and so is the fault.
        ensures reads { IfOk result
            (λ pulled. (text : List ℕ) (before : List (List ℕ)) → Reads text before self.old
            → Reads (text ++ take pulled.taken piece.now)
            (before ++ item_of pulled.item) self.new) }
        // After a record nothing is kept; a piece without its end or a fault is taken whole.
        ensures whole { IfOk result (λ pulled.
            MatchOption pulled.item (pulled.fault ≡ None → pulled.taken ≡ length piece.now)
            (λ item. (self.new.rest ≡ []) × (0 < pulled.taken) × (pulled.fault ≡ None))) }
        ensures fault { IfOk result (λ pulled. pulled.fault ≡ self.new.fault) }
        // The last byte that is taken makes it a fault: before it the record might have gone on.
        ensures last { self.old.fault ≡ None → IfOk result (λ pulled.
            IfSome pulled.fault (λ f. (0 < pulled.taken)
            × (first (self.old.rest ++ take (pulled.taken - 1) piece.now) ≡ partial))) }
        ensures stays { IfSome self.old.fault (λ f. self.new.fault ≡ Some f) }
        ensures none { IfOk result (λ pulled.
            IfSome self.old.fault (λ f. (pulled.taken ≡ 0) × (pulled.item ≡ None))) }
        ensures memory { IfErr result (λ e. (e ≡ FrameFault.OutOfMemory)
            × (self.new.fault ≡ Some FrameFault.OutOfMemory)) }
        ensures again { self.old.fault ≡ Some FrameFault.OutOfMemory
            → result ≡ Err FrameFault.OutOfMemory }
    {
        if let Some(fault) = self.fault {
            return pulled_after(fault);
        }
        match self.part.pull(alloc, piece) {
            Ok(pulled) => {
                self.fault = pulled.fault;
                Ok(pulled)
            }
            Err(_) => {
                self.fault = Some(FrameFault::OutOfMemory);
                Err(FrameFault::OutOfMemory)
            }
        }
    }

    /// Takes the next piece of the stream, of any length, and returns the records that are whole
    /// now. A fault is returned at the byte that makes it one. After `F1`, `F2` or `F4` each later
    /// call returns no record and the same fault. The time is linear in the bytes fed, however
    /// small the pieces are.
    pub fn feed(&mut self, alloc: Global, piece: &[u8]) -> Result<Fed, FrameFault>
        // Over any pieces, the records are those of the whole text, and so is the fault.
        ensures reads { IfOk result
            (λ fed. (text : List ℕ) (before : List (List ℕ)) → Reads text before self.old
            → Reads (text ++ piece.now) (before ++ bodies fed.records.items) self.new) }
        ensures fault { IfOk result (λ fed. fed.fault ≡ self.new.fault) }
        ensures stays { IfSome self.old.fault (λ f. self.new.fault ≡ Some f) }
        ensures none { IfOk result
            (λ fed. IfSome self.old.fault (λ f. bodies fed.records.items ≡ [])) }
        ensures memory { IfErr result (λ e. (e ≡ FrameFault.OutOfMemory)
            × (self.new.fault ≡ Some FrameFault.OutOfMemory)) }
        ensures again { self.old.fault ≡ Some FrameFault.OutOfMemory
            → result ≡ Err FrameFault.OutOfMemory }
    {
        match self.fault {
            Some(FrameFault::OutOfMemory) => return Err(FrameFault::OutOfMemory),
            Some(f) => {
                return Ok(Fed {
                    records: Vec::new(alloc),
                    fault: Some(f),
                });
            }
            None => {}
        }
        match self.pull_all(alloc, piece) {
            Ok(records) => Ok(Fed {
                records,
                fault: self.fault,
            }),
            Err(_) => {
                self.fault = Some(FrameFault::OutOfMemory);
                Err(FrameFault::OutOfMemory)
            }
        }
    }

    /// Pulls until the piece completes no further record.
    fn pull_all(&mut self, alloc: Global, piece: &[u8]) -> Result<Vec<Vec<u8>>, FrameFault>
        requires { self.old.fault ≡ None }
        ensures { IfOk result
            (λ records. (text : List ℕ) (before : List (List ℕ)) → Reads text before self.old
            → Reads (text ++ piece.now) (before ++ bodies records.items) self.new) }
    {
        let mut records = Vec::new(alloc);
        let mut used = 0;
        loop {
            let Pulled { taken, item, .. } = self.pull(alloc, &piece[used..])?;
            let Some(item) = item else {
                return Ok(records);
            };
            records.push(item)?;
            used += taken;
        }
    }

    /// What the end of the stream says: `F3` inside a record or a size line,
    /// the fault that was met before, or nothing.
    pub fn end(&self) -> Result<(), FrameFault>
        ensures { result ≡ end_of self.now }
    {
        match self.fault {
            Some(f) => Err(f),
            None if self.part.is_empty() => Ok(()),
            None => Err(FrameFault::Cut),
        }
    }
}

/// What waits for the rest of its record is never longer than a size line and the data of one
/// record, so a reader without a fault keeps no more than that.
pub fn what_waits_is_short()
    ensures { (rest : List ℕ) → first rest ≡ partial → length rest ≤ 20 + limit }
{}

/// The records of the beginning of a stream are the first records of the whole stream.
pub fn first_records_stay()
    ensures { (text more : List ℕ) (records all : List (List ℕ)) (s t : State)
        → Reads text records s → Reads (text ++ more) all t
        → (others : List (List ℕ)) × (all ≡ records ++ others) }
{}

/// After a fault nothing more is read.
pub fn fault_stays()
    ensures { (text more : List ℕ) (records : List (List ℕ)) (s : State) (f : FrameFault)
        → s.fault ≡ Some f → Reads text records s → Reads (text ++ more) records s }
{}
