//! What stays of each framework over a round.

ghost use Rattle.std.specs.Prelude.{◌≡◌, IfOk, IfSome};
ghost use Rattle.std.specs.List.{list_any};
ghost use Rattle.cluster_model.specs.Rounds.{may_be_offered, refuses};
ghost use Rattle.drf_pick.specs.ClientShares.{IsClientShare, IsPlaceOf};
ghost use Rattle.master_rounds.specs.Candidates.{AreCandidates, IsCandidate, IsEligibility};

use drf_pick::{ClientPlace, ClientShare, Shares};
use master_state::refuses;
use messages::{Filter, Framework};
use names_core::AgentName;
use quantity::Resources;
use std::alloc::{AllocError, Global};

/// With fewer agents than this a round has no candidates.
const FEWEST_AGENTS: usize = 16;

/// Whether resources may be offered to a framework.
#[derive(Clone, Copy, Drop)]
pub(crate) enum Eligibility {
    /// Any of any agent: it is subscribed, hasn't suppressed offers, and has no filters.
    Always,
    /// None: it isn't subscribed, or has suppressed offers.
    Never,
    /// What no filter of it refuses.
    ByFilters,
}

/// What stays of a framework over a round: whether resources may be offered to it, and its place in
/// the shares.
#[derive(Drop)]
pub struct Candidate {
    pub(crate) eligibility: Eligibility,
    /// Its place and that of its role, where both are known.
    pub(crate) place: Option<ClientPlace>,
}

fn eligibility_of(framework: &Framework) -> Eligibility
    ensures { IsEligibility framework.now result }
{
    if framework.stream.is_none() || framework.suppressed {
        return Eligibility::Never;
    }
    if framework.filters.as_slice().is_empty() {
        Eligibility::Always
    } else {
        Eligibility::ByFilters
    }
}

fn candidate_of(shares: &Shares, framework: &Framework, guess: usize) -> Candidate
    ensures { IsCandidate shares.now framework.now result }
{
    Candidate {
        eligibility: eligibility_of(framework),
        place: ClientPlace::of(shares, framework.id, &framework.role, guess),
    }
}

/// The candidates of a round that begins, one for each framework. There are none where so few
/// agents are visited that they would take longer to make than they save.
pub fn candidates_of(
    alloc: Global,
    shares: &Shares,
    frameworks: &[Framework],
    agents: usize,
) -> Result<Vec<Candidate>, AllocError>
    ensures { IfOk result (λ candidates. AreCandidates shares.now frameworks.now
        candidates.items) }
{
    let mut candidates = Vec::new(alloc);
    if agents < FEWEST_AGENTS {
        return Ok(candidates);
    }
    for place in 0..frameworks.len() {
        candidates.push(candidate_of(shares, &frameworks[place], place))?;
    }
    Ok(candidates)
}

fn any_refuses(filters: &[Filter], now: u32, agent: &AgentName, free: &Resources) -> bool
    ensures { result ≡ list_any (refuses now agent.now free.now) filters.now }
{
    for filter in filters {
        if refuses(filter, now, agent, free) {
            return true;
        }
    }
    false
}

fn is_eligible(framework: &Framework, now: u32, agent: &AgentName, free: &Resources) -> bool
    ensures { result ≡ may_be_offered now agent.now free.now framework.now }
{
    framework.stream.is_some()
        && !framework.suppressed
        && !any_refuses(framework.filters.as_slice(), now, agent, free)
}

fn is_eligible_as(
    eligibility: Eligibility,
    framework: &Framework,
    now: u32,
    agent: &AgentName,
    free: &Resources,
) -> bool
    requires { IsEligibility framework.now eligibility }
    ensures { result ≡ may_be_offered now agent.now free.now framework.now }
{
    match eligibility {
        Eligibility::Always => true,
        Eligibility::Never => false,
        Eligibility::ByFilters => !any_refuses(framework.filters.as_slice(), now, agent, free),
    }
}

/// Whether what is free on an agent may be offered to the framework: it is subscribed, hasn't
/// suppressed offers, and no filter of it that runs at this moment refuses it. It takes no memory.
pub(crate) fn may_be_offered(
    candidate: Option<&Candidate>,
    framework: &Framework,
    now: u32,
    agent: &AgentName,
    free: &Resources,
) -> bool
    requires { IfSome candidate (λ c. IsEligibility framework.now c.now.eligibility) }
    ensures { result ≡ may_be_offered now agent.now free.now framework.now }
{
    match candidate {
        Some(candidate) => is_eligible_as(candidate.eligibility, framework, now, agent, free),
        None => is_eligible(framework, now, agent, free),
    }
}

fn share_at(
    shares: &Shares,
    framework: &Framework,
    place: Option<ClientPlace>,
    guess: usize,
) -> ClientShare
    requires { IfSome place (IsPlaceOf shares.now framework.now.id framework.now.role) }
    ensures { IsClientShare shares.now framework.now.id framework.now.role result }
{
    match place {
        Some(place) => ClientShare::at(shares, place),
        None => ClientShare::of(shares, framework.id, &framework.role, guess),
    }
}

/// The shares of a framework and its role.
pub(crate) fn share_of(
    shares: &Shares,
    candidate: Option<&Candidate>,
    framework: &Framework,
    guess: usize,
) -> ClientShare
    requires { IfSome candidate (λ c. IfSome c.now.place
        (IsPlaceOf shares.now framework.now.id framework.now.role)) }
    ensures { IsClientShare shares.now framework.now.id framework.now.role result }
{
    match candidate {
        Some(candidate) => share_at(shares, framework, candidate.place, guess),
        None => share_at(shares, framework, None, guess),
    }
}
