//! The calls that the generated ones leave out.

use crate::book::OfferBook;
use crate::fault::BookFault;
use messages::{Booked, Job, Offer};
use names_core::{AgentName, FrameworkId, LaunchKey, OfferId, TaskName, TaskState};
use offer_book::TaskUpdate;
use quantity::Resources;
use std::alloc::Global;
use std::test::Fail;

fn cpus(alloc: Global, amount: u64) -> Option<Resources> {
    let mut resources = Resources::new(alloc);
    resources.add(alloc, "cpus", amount).ok()?;
    Some(resources)
}

fn enter(book: &mut OfferBook, alloc: Global, name: &AgentName) -> Option<Result<(), BookFault>> {
    let total = cpus(alloc, 4)?;
    let copy = AgentName::from_text(alloc, name.as_text()).ok()?;
    Some(book.enter_agent(alloc, copy, total))
}

fn offer(book: &mut OfferBook, alloc: Global, name: &AgentName) -> Option<Result<(), BookFault>> {
    let resources = cpus(alloc, 1)?;
    let offer = Offer {
        id: OfferId::new(1, 1),
        framework: FrameworkId::new(1, 1),
        resources,
    };
    Some(book.offer(name, offer))
}

fn launch(book: &mut OfferBook, alloc: Global, name: &AgentName) -> Option<Result<(), BookFault>> {
    let task_name = TaskName::from_text(alloc, "t1").ok()?;
    let resources = cpus(alloc, 2)?;
    let job = Job {
        key: LaunchKey::new(1, 1),
        framework: FrameworkId::new(1, 1),
        name: task_name,
        resources,
    };
    let task = Booked {
        job,
        ended: false,
        received: 0,
        state: TaskState::Staging,
    };
    Some(book.book(alloc, name, task))
}

fn end_by_update(book: &mut OfferBook, key: LaunchKey) -> bool {
    book.receive(&TaskUpdate {
        key,
        k: 0,
        state: TaskState::Finished,
        ended: true,
    });
    match book.task_of(key) {
        Some((agent, task)) => agent.as_text() == "a1" && task.received == 1,
        None => false,
    }
}

fn free_cpus(book: &OfferBook, name: &AgentName) -> u64 {
    match book.free(name) {
        Ok(free) => free.get("cpus"),
        Err(_) => 0,
    }
}

/// Whether what is there once the agent's session ends is what was asked for, and nothing else.
fn empties(book: &mut OfferBook, alloc: Global, name: &AgentName) -> Option<bool> {
    let total = cpus(alloc, 7)?;
    let answer = book.empty_agent(name, total);
    let none = book.offers_on(0).is_empty() && book.tasks_on(0).is_empty();
    Some(answer == Ok(()) && none && free_cpus(book, name) == 7)
}

#[test]
fn agents_come_and_go(rt: HostRuntime) -> Result<(), Fail> {
    let alloc = rt.alloc();
    let mut book = OfferBook::new(alloc);
    let key = LaunchKey::new(1, 1);
    let Ok(name) = AgentName::from_text(alloc, "a1") else {
        return Ok(());
    };
    assert!(rt; enter(&mut book, alloc, &name) == Some(Ok(())));
    assert!(rt; enter(&mut book, alloc, &name) == Some(Err(BookFault::Twice)));
    assert!(rt; offer(&mut book, alloc, &name) == Some(Ok(())));
    assert!(rt; launch(&mut book, alloc, &name) == Some(Ok(())));
    assert!(rt; book.offers_on(0).len() == 1 && book.tasks_on(0) == [key].as_slice());
    assert!(rt; end_by_update(&mut book, key) && free_cpus(&book, &name) == 3);
    assert!(rt; empties(&mut book, alloc, &name) == Some(true));
    assert!(rt; book.drop_agent(alloc, &name) == Ok(()));
    assert!(rt; book.drop_agent(alloc, &name) == Err(BookFault::Unknown));
    assert!(rt; enter(&mut book, alloc, &name) == Some(Ok(())));
    assert!(rt; book.len() == 1 && free_cpus(&book, &name) == 4);
    Ok(())
}
