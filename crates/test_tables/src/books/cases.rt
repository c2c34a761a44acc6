//! What the lines speak of.

use crate::books::agents::Kept;
use crate::books::{agents, books, configs, sessions, shares, words};
use drf_pick::Shares;
use master_agents::ConfiguredAgents;
use offer_tables::OfferBook;
use roster::Roster;
use std::alloc::Global;

/// What the lines so far have made.
#[derive(Drop)]
pub struct Cases {
    book: OfferBook,
    shares: Shares,
    roster: Roster,
    config: ConfiguredAgents,
    agent: Kept,
}

impl Cases {
    pub fn new(alloc: Global) -> Cases {
        Cases {
            book: OfferBook::new(alloc),
            shares: Shares::new(alloc),
            roster: Roster::new(alloc),
            config: ConfiguredAgents::new(alloc),
            agent: Kept::new(),
        }
    }
}

fn answer_of(cases: &mut Cases, alloc: Global, line: &str) -> Option<String> {
    let (subject, rest) = words::first(line);
    let (kind, rest) = words::first(rest);
    match subject {
        "book" => books::answer(&mut cases.book, alloc, kind, rest),
        "shares" => shares::answer(&mut cases.shares, alloc, kind, rest),
        "roster" => sessions::answer(&mut cases.roster, alloc, kind, rest),
        "config" => configs::add(&mut cases.config, alloc, rest),
        "agent" => agents::answer(&mut cases.agent, alloc, kind, rest),
        _ => None,
    }
}

/// What a line's call answers; nothing where the line is no call, or memory was refused.
pub fn answer(cases: &mut Cases, alloc: Global, line: &str) -> String {
    match answer_of(cases, alloc, line) {
        Some(text) => text,
        None => String::new(alloc),
    }
}
