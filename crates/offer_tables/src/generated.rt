//! A thousand generated calls, made of the book and of plain lists: all answers are the same.

use crate::book::OfferBook;
use crate::fault::BookFault;
use crate::plain::{Entry, Plain};
use messages::{Booked, Command, Job, Offer};
use names_core::{AgentName, FrameworkId, LaunchKey, OfferId, TaskName, TaskState};
use quantity::Resources;
use std::alloc::Global;
use std::test::Fail;

/// The next of a row of numbers, below a bound.
fn below(seed: &mut u64, bound: u32) -> u32 {
    *seed = seed
        .wrapping_mul(6364136223846793005)
        .wrapping_add(1442695040888963407);
    let number = (*seed >> 33) % 1_000_000;
    if bound == 0 {
        return 0;
    }
    number as u32 % bound
}

fn agent(alloc: Global, number: u32) -> Option<AgentName> {
    let text = match number {
        0 => "a0",
        1 => "a1",
        2 => "a2",
        _ => "a3",
    };
    AgentName::from_text(alloc, text).ok()
}

fn task_name(alloc: Global, number: u32) -> Option<TaskName> {
    let text = match number {
        0 => "t0",
        1 => "t1",
        _ => "t2",
    };
    TaskName::from_text(alloc, text).ok()
}

fn amounts(alloc: Global, cpus: u64, mem: u64) -> Option<Resources> {
    let mut resources = Resources::new(alloc);
    resources.add(alloc, "cpus", cpus).ok()?;
    resources.add(alloc, "mem", mem).ok()?;
    Some(resources)
}

fn entry(seed: &mut u64) -> Entry {
    Entry {
        number: below(seed, 12).saturating_add(1),
        agent: below(seed, 4),
        cpus: u64::from(below(seed, 4)),
        mem: u64::from(below(seed, 30)).saturating_add(1),
        name: below(seed, 3),
        ended: false,
    }
}

/// Records with odd numbers are of the first framework, the others of the second.
fn framework(number: u32) -> FrameworkId {
    FrameworkId::new(1, if number % 2 == 1 { 1 } else { 2 })
}

fn make(book: &mut OfferBook, alloc: Global, entry: Entry) -> Option<Result<(), BookFault>> {
    let name = agent(alloc, entry.agent)?;
    let resources = amounts(alloc, entry.cpus, entry.mem)?;
    let offer = Offer {
        id: OfferId::new(1, entry.number.max(1)),
        framework: framework(entry.number),
        resources,
    };
    Some(book.offer(&name, offer))
}

fn launch(book: &mut OfferBook, alloc: Global, entry: Entry) -> Option<Result<(), BookFault>> {
    let agent = agent(alloc, entry.agent)?;
    let name = task_name(alloc, entry.name)?;
    let resources = amounts(alloc, entry.cpus, entry.mem)?;
    let job = Job {
        key: LaunchKey::new(1, entry.number.max(1)),
        framework: framework(entry.number),
        name,
        resources,
    };
    let task = Booked {
        job,
        ended: false,
        received: 0,
        state: TaskState::Staging,
    };
    Some(book.book(alloc, &agent, task))
}

fn withdraw_of(book: &mut OfferBook, plain: &mut Plain, entry: Entry) -> bool {
    book.withdraw_of(framework(entry.number));
    plain.withdraw_of(entry.number % 2 == 1);
    true
}

fn withdraw_named(book: &mut OfferBook, plain: &mut Plain, entry: Entry) -> bool {
    let ids = [OfferId::new(1, entry.number.max(1))];
    book.withdraw_named(framework(entry.name), ids.as_slice());
    plain.withdraw_named(entry.name % 2 == 1, entry.number);
    true
}

fn end_framework(
    book: &mut OfferBook,
    plain: &mut Plain,
    alloc: Global,
    entry: Entry,
) -> Option<bool> {
    let name = agent(alloc, entry.agent)?;
    let commands = [Command::EndFramework(framework(entry.number))];
    let answer = book.forget_by(&name, commands.as_slice());
    Some(answer == plain.end_framework(entry.agent, entry.number % 2 == 1))
}

/// One call of both; whether both answered the same.
fn call(book: &mut OfferBook, plain: &mut Plain, alloc: Global, seed: &mut u64) -> Option<bool> {
    let kind = below(seed, 9);
    let entry = entry(seed);
    let id = OfferId::new(1, entry.number.max(1));
    let key = LaunchKey::new(1, entry.number.max(1));
    let same = match kind {
        0 => make(book, alloc, entry)? == plain.make_offer(entry),
        1 => launch(book, alloc, entry)? == plain.book(entry),
        2 => launch(book, alloc, entry)? == plain.book(entry),
        3 => book.withdraw(id) == plain.withdraw(entry.number),
        4 => book.end_task(key) == plain.end(entry.number),
        5 => withdraw_of(book, plain, entry),
        6 => withdraw_named(book, plain, entry),
        7 => end_framework(book, plain, alloc, entry)?,
        _ => book.forget(key) == plain.forget(entry.number),
    };
    Some(same)
}

fn same_free(book: &OfferBook, plain: &Plain, alloc: Global, number: u32) -> Option<bool> {
    let name = agent(alloc, number)?;
    let free = book.free(&name).ok()?;
    let (cpus, mem) = plain.free(number);
    Some(free.get("cpus") == cpus && free.get("mem") == mem)
}

fn same_held(book: &OfferBook, plain: &Plain, alloc: Global, number: u32) -> Option<bool> {
    let name = task_name(alloc, number)?;
    let odd = held_key(book, FrameworkId::new(1, 1), &name) == plain.held(number, true);
    let even = held_key(book, FrameworkId::new(1, 2), &name) == plain.held(number, false);
    Some(odd && even)
}

fn held_key(book: &OfferBook, framework: FrameworkId, name: &TaskName) -> Option<u32> {
    match book.held(framework, name) {
        Some((_, task)) => Some(key_of(task)),
        None => None,
    }
}

fn key_of(task: &Booked) -> u32 {
    let job = &task.job;
    job.key.number()
}

fn same_records(book: &OfferBook, plain: &Plain, number: u32) -> bool {
    let number = number.max(1);
    let offer = book.offer_of(OfferId::new(1, number)).is_some();
    let task = match book.task_of(LaunchKey::new(1, number)) {
        Some((_, task)) => Some(task.ended),
        None => None,
    };
    let ended = match plain.task(number) {
        Some(entry) => Some(entry.ended),
        None => None,
    };
    offer == plain.offer(number).is_some() && task == ended
}

fn same_answers(book: &OfferBook, plain: &Plain, alloc: Global) -> Option<bool> {
    for number in 0..3 {
        if !same_free(book, plain, alloc, number)? || !same_held(book, plain, alloc, number)? {
            return Some(false);
        }
    }
    for number in 1..13 {
        if !same_records(book, plain, number) {
            return Some(false);
        }
    }
    Some(book.booked_count() == plain.booked_count())
}

fn entered(alloc: Global) -> Option<OfferBook> {
    let mut book = OfferBook::new(alloc);
    for number in 0..3 {
        let name = agent(alloc, number)?;
        let total = amounts(alloc, 8, 64)?;
        book.enter_agent(alloc, name, total).ok()?;
    }
    Some(book)
}

/// So many calls; how many had the same answers, up to the first that hadn't.
fn calls(alloc: Global, count: u32) -> Option<u32> {
    let mut book = entered(alloc)?;
    let mut plain = Plain::new(alloc);
    let mut seed: u64 = 1;
    for done in 0..count {
        let same = call(&mut book, &mut plain, alloc, &mut seed)?;
        if !same || !same_answers(&book, &plain, alloc)? {
            return Some(done);
        }
    }
    Some(count)
}

#[test]
fn generated_calls_are_answered_as_by_plain_lists(rt: HostRuntime) -> Result<(), Fail> {
    assert!(rt; calls(rt.alloc(), 1000) == Some(1000));
    Ok(())
}
