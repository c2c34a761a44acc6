//! A book as plain lists: each answer is found by walking them.

use crate::fault::BookFault;
use std::alloc::Global;

/// An offer or a booked task: its number, its agent, what it has of cpus and mem, its name, and
/// whether it has ended.
#[derive(Clone, Copy, Debug, Drop, PartialEq)]
pub(crate) struct Entry {
    pub number: u32,
    pub agent: u32,
    pub cpus: u64,
    pub mem: u64,
    pub name: u32,
    pub ended: bool,
}

/// Three agents, each of which owns 8 cpus and 64 mem.
#[derive(Drop)]
pub(crate) struct Plain {
    pub offers: Vec<Entry>,
    pub tasks: Vec<Entry>,
}

/// What entries on an agent have that haven't ended.
fn taken(entries: &[Entry], agent: u32) -> (u64, u64) {
    let mut cpus: u64 = 0;
    let mut mem: u64 = 0;
    for entry in entries {
        if entry.agent == agent && !entry.ended {
            cpus = cpus.saturating_add(entry.cpus);
            mem = mem.saturating_add(entry.mem);
        }
    }
    (cpus, mem)
}

fn find(entries: &[Entry], number: u32) -> Option<Entry> {
    entries.iter().find(|entry| entry.number == number).copied()
}

impl Plain {
    pub(crate) fn new(alloc: Global) -> Plain {
        Plain {
            offers: Vec::new(alloc),
            tasks: Vec::new(alloc),
        }
    }

    pub(crate) fn free(&self, agent: u32) -> (u64, u64) {
        let (cpus, mem) = taken(&self.offers, agent);
        let (more_cpus, more_mem) = taken(&self.tasks, agent);
        let left_cpus = 8u64.saturating_sub(cpus).saturating_sub(more_cpus);
        let left_mem = 64u64.saturating_sub(mem).saturating_sub(more_mem);
        (left_cpus, left_mem)
    }

    pub(crate) fn offer(&self, number: u32) -> Option<Entry> {
        find(&self.offers, number)
    }

    pub(crate) fn task(&self, number: u32) -> Option<Entry> {
        find(&self.tasks, number)
    }

    /// Why an entry may not be made, where none has its number.
    fn lacks_room(&self, entry: Entry) -> bool {
        let (cpus, mem) = self.free(entry.agent);
        cpus < entry.cpus || mem < entry.mem
    }

    pub(crate) fn make_offer(&mut self, entry: Entry) -> Result<(), BookFault> {
        if entry.agent >= 3 {
            return Err(BookFault::Unknown);
        }
        if self.offer(entry.number).is_some() {
            return Err(BookFault::Twice);
        }
        if self.lacks_room(entry) {
            return Err(BookFault::NoRoom);
        }
        self.offers.push(entry)?;
        Ok(())
    }

    pub(crate) fn book(&mut self, entry: Entry) -> Result<(), BookFault> {
        if entry.agent >= 3 {
            return Err(BookFault::Unknown);
        }
        if self.task(entry.number).is_some() {
            return Err(BookFault::Twice);
        }
        if self.lacks_room(entry) {
            return Err(BookFault::NoRoom);
        }
        self.tasks.push(entry)?;
        Ok(())
    }

    pub(crate) fn withdraw(&mut self, number: u32) -> Result<(), BookFault> {
        if self.offer(number).is_none() {
            return Err(BookFault::Unknown);
        }
        self.offers.retain(|entry| entry.number != number);
        Ok(())
    }

    /// The framework of an entry is 1 for odd numbers, else 2.
    pub(crate) fn withdraw_of(&mut self, odd: bool) {
        self.offers.retain(|entry| (entry.number % 2 == 1) != odd);
    }

    pub(crate) fn withdraw_named(&mut self, odd: bool, number: u32) {
        self.offers.retain(|entry| entry.number != number || (entry.number % 2 == 1) != odd);
    }

    /// What an agent's command to end a framework takes out.
    pub(crate) fn end_framework(&mut self, agent: u32, odd: bool) -> Result<(), BookFault> {
        if agent >= 3 {
            return Err(BookFault::Unknown);
        }
        self.tasks.retain(|entry| entry.agent != agent || (entry.number % 2 == 1) != odd);
        Ok(())
    }

    pub(crate) fn booked_count(&self) -> u128 {
        self.tasks.len() as u128
    }

    pub(crate) fn forget(&mut self, number: u32) -> Result<(), BookFault> {
        if self.task(number).is_none() {
            return Err(BookFault::Unknown);
        }
        self.tasks.retain(|entry| entry.number != number);
        Ok(())
    }

    pub(crate) fn end(&mut self, number: u32) -> Result<(), BookFault> {
        for i in 0..self.tasks.len() {
            if self.tasks[i].number == number {
                self.tasks[i].ended = true;
                return Ok(());
            }
        }
        Err(BookFault::Unknown)
    }

    /// The number of the task of a framework's name: of those that haven't ended, else of those that
    /// have, the least.
    pub(crate) fn held(&self, name: u32, odd: bool) -> Option<u32> {
        let mut best: Option<Entry> = None;
        for entry in &self.tasks {
            let its = entry.name == name && (entry.number % 2 == 1) == odd;
            if its && is_better(best, *entry) {
                best = Some(*entry);
            }
        }
        match best {
            Some(entry) => Some(entry.number),
            None => None,
        }
    }
}

fn is_better(best: Option<Entry>, entry: Entry) -> bool {
    let Some(other) = best else {
        return true;
    };
    if entry.ended == other.ended {
        entry.number < other.number
    } else {
        other.ended
    }
}
