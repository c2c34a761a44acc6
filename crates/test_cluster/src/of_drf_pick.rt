//! A thousand generated calls, made of shares and of plain lists: all answers are the same.

use crate::plain_shares::{Amounts, Held, Plain};
use drf_pick::{Client, Shares, SharesFault, pick};
use names_core::{FrameworkId, RoleName};
use quantity::Resources;
use std::alloc::Global;

/// So many calls are made.
const CALLS: u32 = 1_000;

/// The next of a row of numbers, below a bound.
fn below(seed: &mut u64, bound: u32) -> u32 {
    *seed = seed
        .wrapping_mul(6364136223846793005)
        .wrapping_add(1442695040888963407);
    let number = (*seed >> 33) % 1_000_000;
    if bound == 0 {
        return 0;
    }
    number as u32 % bound
}

fn role_name(alloc: Global, number: u32) -> Option<RoleName> {
    let text = match number {
        0 => "*",
        1 => "prod",
        2 => "qa",
        _ => "test",
    };
    RoleName::from_text(alloc, text).ok()
}

fn framework(number: u32) -> FrameworkId {
    FrameworkId::new(1, number.max(1))
}

fn resources(alloc: Global, amounts: Amounts) -> Option<Resources> {
    let mut resources = Resources::new(alloc);
    resources.add(alloc, "cpus", amounts.0).ok()?;
    resources.add(alloc, "mem", amounts.1).ok()?;
    Some(resources)
}

/// Whether an answer is the one that is due: none, or that so much isn't held.
fn is_due(answer: Result<(), SharesFault>, due: bool) -> bool {
    match answer {
        Ok(()) => due,
        Err(SharesFault::NotHeld) => !due,
        Err(_) => false,
    }
}

fn enter(shares: &mut Shares, plain: &mut Plain, alloc: Global, total: Amounts) -> Option<bool> {
    let owned = resources(alloc, total)?;
    if !shares.totals().can_add(&owned) {
        return None;
    }
    plain.enter(total);
    Some(shares.enter(alloc, &owned).is_ok())
}

fn leave(shares: &mut Shares, plain: &mut Plain, alloc: Global, total: Amounts) -> Option<bool> {
    let owned = resources(alloc, total)?;
    let answer = shares.leave(alloc, &owned);
    Some(is_due(answer, plain.leave(total)))
}

fn give(
    shares: &mut Shares,
    plain: &mut Plain,
    alloc: Global,
    number: u32,
    amounts: Amounts,
) -> Option<bool> {
    let given = resources(alloc, amounts)?;
    let can = shares.can_hold(alloc, &given).ok()?;
    if !can {
        return None;
    }
    plain.give(number, amounts)?;
    Some(shares.give(alloc, framework(number), &given).is_ok())
}

fn back(
    shares: &mut Shares,
    plain: &mut Plain,
    alloc: Global,
    number: u32,
    amounts: Amounts,
) -> Option<bool> {
    let returned = resources(alloc, amounts)?;
    let answer = shares.back(alloc, framework(number), &returned);
    Some(is_due(answer, plain.back(number, amounts)))
}

fn role(
    shares: &mut Shares,
    plain: &mut Plain,
    alloc: Global,
    number: u32,
    role: u32,
) -> Option<bool> {
    let name = role_name(alloc, role)?;
    plain.role(number, role)?;
    Some(shares.role(alloc, framework(number), &name).is_ok())
}

fn weigh(
    shares: &mut Shares,
    plain: &mut Plain,
    alloc: Global,
    role: u32,
    weight: u16,
) -> Option<bool> {
    let name = role_name(alloc, role)?;
    if weight < 1 || weight > 1_000 {
        return None;
    }
    plain.weigh(role, u64::from(weight));
    Some(shares.weigh(alloc, &name, weight).is_ok())
}

/// One call of both; whether both answered the same.
fn call(shares: &mut Shares, plain: &mut Plain, alloc: Global, seed: &mut u64) -> Option<bool> {
    let kind = below(seed, 9);
    let number = below(seed, 5).saturating_add(1);
    let role_number = below(seed, 4);
    let amounts = (u64::from(below(seed, 5)), u64::from(below(seed, 30)));
    let weight = u16::try_from(below(seed, 7)).unwrap_or(0);
    match kind {
        0 | 1 => enter(shares, plain, alloc, amounts),
        2 => leave(shares, plain, alloc, amounts),
        3 => role(shares, plain, alloc, number, role_number),
        4 => weigh(shares, plain, alloc, role_number, weight.saturating_add(1)),
        5 | 6 => give(shares, plain, alloc, number, amounts),
        _ => back(shares, plain, alloc, number, amounts),
    }
}

fn client(alloc: Global, held: Held) -> Option<Client> {
    Some(Client {
        framework: framework(held.framework),
        role: role_name(alloc, held.role)?,
    })
}

fn clients(alloc: Global, held: &[Held]) -> Option<Vec<Client>> {
    let mut clients = Vec::new(alloc);
    for one in held {
        clients.push(client(alloc, *one)?).ok()?;
    }
    Some(clients)
}

/// Whether the same one of all frameworks stands least.
fn picks_the_same(shares: &Shares, plain: &Plain, alloc: Global) -> Option<bool> {
    let clients = clients(alloc, plain.held())?;
    let picked = pick(shares, clients.as_slice()).map(|id| id.number());
    Some(picked == plain.pick())
}

/// How many calls had the same answers, up to the first that hadn't.
fn same_calls(alloc: Global, count: u32) -> Option<u32> {
    let mut shares = Shares::new(alloc);
    let mut plain = Plain::new(alloc)?;
    let mut seed: u64 = 1;
    for done in 0..count {
        let same = call(&mut shares, &mut plain, alloc, &mut seed)?;
        if !same || !picks_the_same(&shares, &plain, alloc)? {
            return Some(done);
        }
    }
    Some(count)
}

/// Generated calls of shares are answered as by plain lists, and the same framework is picked.
pub fn generated_shares_are_as_plain_lists(alloc: Global) -> bool {
    same_calls(alloc, CALLS) == Some(CALLS)
}
