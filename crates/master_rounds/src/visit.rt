//! A round visits the agents, in order.

ghost use Rattle.std.specs.Prelude.{◌≡◌, ◌≤◌, ◌<◌, None, Some, fold, OnOk, IfOk};
ghost use Rattle.cluster_model.specs.Ids.{is_empty, last_number};
ghost use Rattle.drf_pick.specs.Shares.{CanHold, held_more};
ghost use Rattle.roster.specs.Places.{value_at};
ghost use Rattle.master_agents.specs.Free.{open_part};
ghost use Rattle.master_state.specs.Starts.{AreStarts};
ghost use Rattle.master_rounds.specs.Candidates.{AreCandidates};
ghost use Rattle.master_rounds.specs.Visits.{HasRoom, KeepsRoom, begins, goes_to, offers_free, round_with, visits, visits_part};

use crate::shares::{Candidate, candidates_of, picked};
use drf_pick::Shares;
use master_state::{SearchHints, State};
use messages::SentOffer;
use names_core::{AgentName, FrameworkId, OfferId, Run};
use quantity::Resources;
use std::alloc::{AllocError, Global};
use values::{Listed, Plain};

/// The last number of an offer.
const LAST_NUMBER: u64 = 4_294_967_295;

/// How far a round has come.
#[derive(Drop)]
pub struct Progress {
    /// The offers made so far, in order.
    pub made: Listed<SentOffer>,
    /// The number of the next offer.
    pub next: u64,
    /// What frameworks hold, with these offers.
    pub shares: Shares,
}

fn give(
    shares: &mut Shares,
    alloc: Global,
    framework: FrameworkId,
    free: &Resources,
) -> Result<(), AllocError>
    requires { CanHold free.now shares.old }
    ensures { OnOk result (shares.new ≡ held_more framework free.now shares.old) }
{
    match shares.allocate(alloc, framework, free) {
        Ok(()) => Ok(()),
        Err(_) => Err(AllocError),
    }
}

fn go_to(
    progress: &mut Progress,
    alloc: Global,
    run: Run,
    agent: &AgentName,
    free: Resources,
    framework: FrameworkId,
) -> Result<(), AllocError>
    requires numbered { 0 < progress.old.next }
    requires left { progress.old.next ≤ last_number }
    requires room { CanHold free progress.old.shares }
    ensures numbered { 0 < progress.new.next }
    ensures ok { OnOk result (progress.new ≡ goes_to run agent.now free progress.old
        (Some framework)) }
{
    give(&mut progress.shares, alloc, framework, &free)?;
    let agent = agent.copy()?;
    let id = OfferId::new(run.number(), progress.next as u32);
    progress.made.push(SentOffer {
        id,
        framework,
        agent,
        resources: free,
    })?;
    progress.next += 1;
    Ok(())
}

fn is_empty(free: &Resources) -> bool
    ensures { result ≡ is_empty free.now }
{
    free.is_empty()
}

fn offer_free(
    progress: &mut Progress,
    alloc: Global,
    state: &State,
    candidates: &[Candidate],
    starts: &mut SearchHints,
    place: usize,
    agent: &AgentName,
    free: Resources,
) -> Result<(), AllocError>
    requires numbered { 0 < progress.old.next }
    requires room { CanHold free progress.old.shares }
    requires candidates { AreCandidates progress.old.shares state.now.frameworks candidates.now }
    requires starts { AreStarts state.now.frameworks starts.old }
    ensures numbered { 0 < progress.new.next }
    ensures starts { OnOk result (AreStarts state.now.frameworks starts.new) }
    ensures candidates { OnOk result (AreCandidates progress.new.shares state.now.frameworks
        candidates.now) }
    ensures ok { OnOk result (progress.new ≡ offers_free state.now.run state.now.moment
        state.now.frameworks progress.old agent.now free) }
{
    if is_empty(&free) || LAST_NUMBER < progress.next {
        return Ok(());
    }
    let frameworks = &state.frameworks;
    let now = state.moment;
    let first = starts.passed_over(place, frameworks.as_slice(), now, agent, &free)?;
    let shares = &progress.shares;
    match picked(shares, frameworks, candidates, first, now, agent, &free) {
        None => Ok(()),
        Some(framework) => go_to(progress, alloc, state.run, agent, free, framework),
    }
}

fn visit(
    progress: &mut Progress,
    alloc: Global,
    state: &State,
    candidates: &[Candidate],
    starts: &mut SearchHints,
    place: usize,
) -> Result<(), AllocError>
    requires numbered { 0 < progress.old.next }
    requires room { HasRoom (value_at place open_part None state.now.sides) progress.old.shares }
    requires candidates { AreCandidates progress.old.shares state.now.frameworks candidates.now }
    requires starts { AreStarts state.now.frameworks starts.old }
    ensures numbered { 0 < progress.new.next }
    ensures starts { OnOk result (AreStarts state.now.frameworks starts.new) }
    ensures candidates { OnOk result (AreCandidates progress.new.shares state.now.frameworks
        candidates.now) }
    ensures ok { OnOk result (progress.new ≡ visits_part state.now.run state.now.moment
        state.now.frameworks progress.old (value_at place open_part None state.now.sides)) }
{
    match state.sides.open_part(place)? {
        None => Ok(()),
        Some((agent, free)) => offer_free(
            progress, alloc, state, candidates, starts, place, agent, free,
        ),
    }
}

fn visit_all(
    progress: &mut Progress,
    alloc: Global,
    state: &State,
    candidates: &[Candidate],
    starts: &mut SearchHints,
) -> Result<(), AllocError>
    requires numbered { 0 < progress.old.next }
    requires room { KeepsRoom state.now progress.old }
    requires candidates { AreCandidates progress.old.shares state.now.frameworks candidates.now }
    requires starts { AreStarts state.now.frameworks starts.old }
    ensures starts { OnOk result (AreStarts state.now.frameworks starts.new) }
    ensures progress { OnOk result (progress.new ≡ fold (visits state.now.run state.now.moment
        state.now.frameworks) progress.old state.now.sides) }
{
    for place in 0..state.sides.len() {
        visit(progress, alloc, state, candidates, starts, place)?;
    }
    Ok(())
}

/// The offers of a round: each agent's whole free part goes to the eligible framework that
/// stands least, counted before the next agent is visited. The shares are those of the round.
pub fn round_of(
    state: &State,
    alloc: Global,
    shares: Shares,
    starts: &mut SearchHints,
) -> Result<Progress, AllocError>
    requires next { 0 < state.now.next_offer }
    requires room { KeepsRoom state.now (begins shares state.now) }
    requires starts { AreStarts state.now.frameworks starts.old }
    ensures progress { IfOk result (λ progress. progress ≡ round_with shares state.now) }
    ensures starts { OnOk result (AreStarts state.now.frameworks starts.new) }
{
    let frameworks = state.frameworks.as_slice();
    let candidates = candidates_of(alloc, &shares, frameworks, state.sides.len())?;
    let mut progress = Progress {
        made: Listed::new(alloc),
        next: state.next_offer,
        shares,
    };
    visit_all(&mut progress, alloc, state, &candidates, starts)?;
    Ok(progress)
}
