//! Amounts of resources, as `cpus:4 mem:4096`, or `-` where there are none.
//! Two lists have ` and ` between them.

use quantity::{QuantityFault, Resources};
use std::alloc::{AllocError, Global};
use values::Plain;

/// Adds what a word says, as `cpus:4`; `-` says nothing.
fn add(resources: &mut Resources, alloc: Global, word: &str) -> Result<(), QuantityFault> {
    match word.rsplit_once(':') {
        Some((name, amount)) => resources.add(alloc, name, amount.parse().unwrap_or(0)),
        None => Ok(()),
    }
}

/// The amounts that a text lists.
fn amounts(alloc: Global, text: &str) -> Result<Resources, QuantityFault> {
    let mut resources = Resources::new(alloc);
    for word in text.split(' ') {
        add(&mut resources, alloc, word)?;
    }
    Ok(resources)
}

/// What is answered where a word is added to a list, and what the list is then.
fn after_add(alloc: Global, some: &mut Resources, word: &str) -> Result<String, AllocError> {
    let added = add(some, alloc, word);
    format!(in alloc; "{:?}", (added, some))
}

/// What a list is once it is reduced by another one, and a copy from before.
fn after_reduce(
    alloc: Global,
    some: &mut Resources,
    others: &Resources,
) -> Result<String, AllocError> {
    let copy = some.copy();
    some.reduce_by(others);
    format!(in alloc; "{:?}", (some, copy))
}

fn of_two(
    alloc: Global,
    kind: &str,
    some: &mut Resources,
    others: &Resources,
) -> Result<String, AllocError> {
    match kind {
        "plus" => format!(in alloc; "{:?}", some.plus(alloc, others)),
        "minus" => format!(in alloc; "{:?}", some.minus(alloc, others)),
        "reduce" => after_reduce(alloc, some, others),
        _ => format!(in alloc; "{:?}", (some.covers(others), some.is_same(others))),
    }
}

fn of_list(
    alloc: Global,
    kind: &str,
    some: &mut Resources,
    text: &str,
) -> Result<String, AllocError> {
    match kind {
        "add" => after_add(alloc, some, text),
        "amount" => format!(in alloc; "{}", some.get(text)),
        _ => match amounts(alloc, text) {
            Ok(others) => of_two(alloc, kind, some, &others),
            Err(fault) => format!(in alloc; "{fault:?}"),
        },
    }
}

pub(crate) fn of_amounts(alloc: Global, kind: &str, text: &str) -> Result<String, AllocError> {
    let (some, others) = text.split_once(" and ").unwrap_or((text, "-"));
    match amounts(alloc, some) {
        Ok(mut some) => of_list(alloc, kind, &mut some, others),
        Err(fault) => format!(in alloc; "{fault:?}"),
    }
}
