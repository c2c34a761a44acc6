//! The job that waits for its worker, and the benches that workers returned.

ghost use Rattle.std.specs.Prelude.{◌≡◌, ◌≤◌, ◌+◌, ◌++◌, ◌∷◌, [], ◌↔◌, IsTrue, IfOk, OnErr, MatchOption, None, Some, length, is_some, vec_len, vec_capacity};

use std::alloc::{AllocError, Global};
use std::mem;
use std::sync::ledger;
use std::sync::ledger::{Blank, Book, Share};

/// The right to return one bench, for which there is room.
#[derive(Drop)]
pub struct Ticket<L: ledger::Ledger> {
    share: Share<L>,
    ghost part: { share.parts ≡ 1 },
    ghost amount: { share.amount ≡ 1 },
}

/// What the workers share. Of each connection that is admitted, its ticket is out or its bench is
/// here; a ticket is out until the bench returns with it, and there is room for the bench.
#[derive(Drop)]
pub struct WorkerPool<J, B, L: ledger::Ledger> {
    /// The job of the worker that starts next.
    job: Option<J>,
    benches: Vec<B>,
    /// How many tickets are out.
    running: u32,
    /// So many are out at most.
    most: u32,
    tickets: Book<L>,
    /// What no ticket has of their count.
    rest: Share<L>,
    ghost counted: { tickets.total ≡ running },
    ghost parts: { rest.parts + running ≡ 4294967296 },
    ghost room: { vec_len benches + running ≤ vec_capacity benches },
    ghost few: { running ≤ most },
}

impl<J, B, L: ledger::Ledger> WorkerPool<J, B, L> {
    /// Without workers, of which at most so many run.
    /// The blank is to be of 4,294,967,296 parts, one for each ticket and one for the floor.
    pub fn new(alloc: Global, most: u32, blank: Blank) -> WorkerPool<J, B, L>
        requires name { blank.name ≡ L.name }
        requires parts { (blank.parts ≡ L.parts) × (blank.parts ≡ 4294967296) }
        ensures nobody { (result.running ≡ 0) × (result.most ≡ most) }
        ensures nothing { (result.job ≡ None) × (result.benches.items ≡ []) }
    {
        let (tickets, rest) = blank.open::<L>();
        WorkerPool {
            job: None,
            benches: Vec::new(alloc),
            running: 0,
            most,
            tickets,
            rest,
        }
    }

    /// Admits one more connection, unless as many tickets are out as may be. Memory is refused for
    /// room for its bench.
    pub fn admit(&mut self) -> Result<Option<Ticket<L>>, AllocError>
        ensures counted { IfOk result (λ ticket. MatchOption ticket
            ((self.old.running ≡ self.old.most) × (self.new.running ≡ self.old.running))
            (λ _. self.new.running ≡ self.old.running + 1)) }
        ensures spent { OnErr result (self.new.running ≡ self.old.running) }
        ensures kept { (self.new.job ≡ self.old.job)
            × (self.new.benches.items ≡ self.old.benches.items) }
        ensures most { self.new.most ≡ self.old.most }
    {
        if self.running >= self.most {
            return Ok(None);
        }
        self.benches.reserve(self.running as usize + 1)?;
        let mut share = self.rest.split_off(1, 0);
        self.tickets.add(&mut share, 1);
        self.running += 1;
        Ok(Some(Ticket { share }))
    }

    pub fn has_job(&self) -> bool
        ensures { result ≡ is_some self.now.job }
    {
        self.job.is_some()
    }

    /// Leaves the job of the worker that starts next.
    pub fn put(&mut self, job: J)
        requires { self.old.job ≡ None }
        ensures put { self.new.job ≡ Some job }
        ensures kept { (self.new.benches.items ≡ self.old.benches.items)
            × (self.new.running ≡ self.old.running) }
        ensures most { self.new.most ≡ self.old.most }
    {
        match self.job.replace(job) {
            None => {}
            Some(_) => unreachable!(),
        }
    }

    /// Takes the job that waits.
    pub fn take(&mut self) -> Option<J>
        ensures taken { (result ≡ self.old.job) × (self.new.job ≡ None) }
        ensures kept { (self.new.benches.items ≡ self.old.benches.items)
            × (self.new.running ≡ self.old.running) }
        ensures most { self.new.most ≡ self.old.most }
    {
        self.job.take()
    }

    /// A ticket comes back.
    fn end(&mut self, ticket: Ticket<L>)
        ensures counted { self.new.running + 1 ≡ self.old.running }
        ensures benches { self.new.benches ≡ self.old.benches }
        ensures job { self.new.job ≡ self.old.job }
        ensures most { self.new.most ≡ self.old.most }
    {
        let Ticket { mut share } = ticket;
        self.tickets.sub(&mut share, 1);
        self.rest.merge(share);
        self.running -= 1;
    }

    /// The ticket of a connection that wasn't taken comes back.
    pub fn withdraw(&mut self, ticket: Ticket<L>)
        ensures counted { self.new.running + 1 ≡ self.old.running }
        ensures kept { (self.new.job ≡ self.old.job)
            × (self.new.benches.items ≡ self.old.benches.items) }
        ensures most { self.new.most ≡ self.old.most }
    {
        self.end(ticket);
    }

    /// The bench of a connection comes back with its ticket.
    pub fn leave(&mut self, bench: B, ticket: Ticket<L>)
        ensures given { self.new.benches.items ≡ self.old.benches.items ++ bench ∷ [] }
        ensures counted { self.new.running + 1 ≡ self.old.running }
        ensures kept { self.new.job ≡ self.old.job }
        ensures most { self.new.most ≡ self.old.most }
    {
        self.end(ticket);
        self.benches.push_reserved(bench);
    }

    /// Whether no ticket is out, and just so many benches are here.
    pub fn is_whole(&self, count: usize) -> bool
        ensures { IsTrue result
            ↔ ((self.now.running ≡ 0) × (length self.now.benches.items ≡ count)) }
    {
        self.running == 0 && self.benches.len() == count
    }

    /// Takes the benches, once no ticket is out.
    pub fn take_benches(&mut self, alloc: Global) -> Vec<B>
        requires { self.old.running ≡ 0 }
        ensures taken { result ≡ self.old.benches }
        ensures kept { (self.new.job ≡ self.old.job) × (self.new.running ≡ self.old.running) }
        ensures most { self.new.most ≡ self.old.most }
    {
        mem::replace(&mut self.benches, Vec::new(alloc))
    }
}
