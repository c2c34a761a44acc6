//! A link from one sender of numbered commands to one receiver.

ghost use Rattle.std.specs.Prelude.{◌≡◌, ◌≢◌, ◌⊎◌, ◌+◌, ◌++◌, ◌∷◌, [], ℕ, List, Some, true, false, Err, IfOk, IfErr, OnOk, OnErr, length, slice_get, suc, take};
ghost use Rattle.std.specs.List.{AllByRecursion as Each};
ghost use Rattle.stream_core.specs.Links.{AreIssued, IsSent, applied, is_spent, issued, issued_count, newly_applied, taken};

use crate::fault::TaskLinkFault;
use std::alloc::{AllocError, Global};
use std::collections::VecDeque;
use std::marker::Model;

/// The sender's end: the commands that it issued and that aren't known to be applied, in order.
/// Commands are numbered from 1.
#[derive(Drop)]
pub struct LinkOut<C> {
    waiting: VecDeque<C>,
    known: u32,
}

impl<C> Model for LinkOut<C> {
    ghost use Rattle.std.specs.Prelude.{◌+◌, ◌≤◌, length};
    ghost use Rattle.stream_core.specs.Links.{Link};

    ghost Value = { Link C };

    ghost view = { λ l. record { waiting = l.waiting.items; known = l.known } };

    ghost invariant = { λ l. l.known + length l.waiting.items ≤ 4294967295 };
}

impl<C> LinkOut<C> {
    /// A link on which nothing was issued.
    pub fn new(alloc: Global) -> LinkOut<C>
        ensures { result ≡ record { waiting = []; known = 0 } }
    {
        LinkOut {
            waiting: VecDeque::new(alloc),
            known: 0,
        }
    }

    /// The commands that were issued and aren't known to be applied, in order.
    pub fn waiting(&self) -> &VecDeque<C>
        ensures { result.now.items ≡ self.now.waiting }
    {
        &self.waiting
    }

    /// How many commands are known to be applied.
    pub fn known(&self) -> u32
        ensures { result ≡ self.now.known }
    {
        self.known
    }

    /// Whether no number is left for another command.
    pub fn is_spent(&self) -> bool
        ensures { result ≡ is_spent self.now }
    {
        u64::from(self.known) + self.waiting.len() as u64 >= 4_294_967_295
    }
}

impl<C: Drop> LinkOut<C> {
    /// Issues a command and returns its number. L2 where every number is used,
    /// U4 where memory ran out.
    pub fn issue(&mut self, command: C) -> Result<u32, TaskLinkFault>
        ensures number { IfOk result (λ n. n ≡ suc (issued_count self.old)) }
        ensures ok { OnOk result (self.new ≡ issued command self.old) }
        ensures spent { result ≡ Err TaskLinkFault.Spent → is_spent self.old ≡ true }
        ensures numbers { OnOk result (is_spent self.old ≡ false) }
        ensures err { IfErr result (λ e. (self.new ≡ self.old)
            × ((e ≡ TaskLinkFault.Spent) ⊎ (e ≡ TaskLinkFault.OutOfMemory))) }
    {
        if self.is_spent() {
            return Err(TaskLinkFault::Spent);
        }
        self.waiting.push_back(command)?;
        Ok(self.known + self.waiting.len() as u32)
    }

    /// The first `count` commands are applied: returns those that weren't known to be, in order.
    /// For a count over what was issued, or not above what is known, it returns none and changes
    /// nothing.
    pub fn applied(&mut self, alloc: Global, count: u32) -> Result<Vec<C>, AllocError>
        ensures newly { IfOk result (λ commands. commands.items ≡ newly_applied count self.old) }
        ensures ok { OnOk result (self.new ≡ applied count self.old) }
        ensures err { OnErr result (self.new ≡ self.old) }
    {
        if count <= self.known || (count - self.known) as usize > self.waiting.len() {
            return Ok(Vec::new(alloc));
        }
        let more = (count - self.known) as usize;
        let mut newly = Vec::with_capacity(alloc, more)?;
        for _ in 0..more {
            newly.push(self.waiting.pop_front().unwrap()).unwrap();
        }
        self.known = count;
        Ok(newly)
    }
}

impl<C> LinkOut<C> {
    /// Of all that comes of this link, in whatever order and however often,
    /// a receiver takes a beginning of all that was issued: of a link on which so much was issued,
    pub fn is_taken_in_order(&self)
        // a command that is issued joins it, under its number,
        ensures issues { (all : List C) (command : C) → AreIssued all self.now
            → AreIssued (all ++ command ∷ []) (issued command self.now)
            × IsSent (all ++ command ∷ []) (suc (issued_count self.now), command) }
        // what is known to be applied changes nothing of it,
        ensures applies { (all : List C) (count : ℕ) → AreIssued all self.now
            → AreIssued all (applied count self.now) }
        // each that waits is sent again under the number that it was issued under,
        ensures waits { (all : List C) (place : ℕ) (command : C) → AreIssued all self.now
            → slice_get self.now.waiting place ≡ Some command
            → IsSent all (suc (self.now.known + place), command) }
        // and what is taken of such mails, each that is the next, is its beginning.
        ensures takes { (all : List C) (mails : List (ℕ × C)) → Each (IsSent all) mails
            → taken 0 mails ≡ take (length (taken 0 mails)) all }
    {}
}

/// The receiver's end: how many of the first commands it has taken.
#[derive(Clone, Copy, Drop, PartialEq, Eq)]
pub struct LinkIn {
    count: u32,
}

impl Model for LinkIn {
    ghost use Rattle.std.specs.Prelude.{ℕ};

    ghost Value = { ℕ };

    ghost view = { λ l. l.count };

    ghost inverse = { λ count. record { count = count } };
}

impl LinkIn {
    /// No command is taken yet.
    pub fn new() -> LinkIn
        ensures { result ≡ 0 }
    {
        LinkIn { count: 0 }
    }

    /// How many commands are taken.
    pub fn count(&self) -> u32
        ensures { result ≡ self.now }
    {
        self.count
    }

    /// Takes the command with this number if it is the next one, else L1.
    pub fn take(&mut self, number: u32) -> Result<(), TaskLinkFault>
        ensures ok { OnOk result ((number ≡ suc self.old) × (self.new ≡ number)) }
        ensures err { IfErr result (λ e. (e ≡ TaskLinkFault.NotNext) × (number ≢ suc self.old)
            × (self.new ≡ self.old)) }
    {
        if number == 0 || number - 1 != self.count {
            return Err(TaskLinkFault::NotNext);
        }
        self.count = number;
        Ok(())
    }
}
