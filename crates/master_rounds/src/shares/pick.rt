//! The eligible framework that stands least.

ghost use Rattle.std.specs.Prelude.{◌≡◌, true, None, fold, take, IfSome, IsTrue};
ghost use Rattle.std.specs.Option.{option_copied};
ghost use Rattle.master_state.specs.Frameworks.{are_ordered, AreOfOneRole};
ghost use Rattle.master_state.specs.Starts.{NoneEligible};
ghost use Rattle.drf_pick.specs.ClientShares.{IsClientShare};
ghost use Rattle.master_rounds.specs.Candidates.{AreCandidates, IsCandidate};
ghost use Rattle.master_rounds.specs.Picks.{better_eligible, eligible_clients, picked};
ghost use Rattle.drf_pick.specs.Laws.{ArePositive};
ghost use Rattle.drf_pick.specs.Least.{IsPick};
ghost use Rattle.drf_pick.specs.Shares.{AreWeighed};

use crate::shares::candidates::{Candidate, may_be_offered, share_of};
use drf_pick::{ClientShare, Shares, comes_before};
use master_state::Frameworks;
use messages::Framework;
use names_core::{AgentName, FrameworkId};
use quantity::Resources;

/// The better one of the best so far and a framework, if what is free may be offered to that. Its
/// filters are read only where it stands before the best so far, if there is one, whose shares are
/// passed. `place` is the place of the framework among all frameworks.
fn better_eligible<'a>(
    shares: &Shares,
    best: Option<&'a Framework>,
    best_share: &mut ClientShare,
    framework: &'a Framework,
    candidate: Option<&Candidate>,
    place: usize,
    now: u32,
    agent: &AgentName,
    free: &Resources,
) -> Option<&'a Framework>
    requires share { IfSome (option_copied best) (λ f. IsClientShare shares.now f.id f.role
        best_share.old) }
    requires candidate { IfSome candidate (λ c. IsCandidate shares.now framework.now c.now) }
    ensures better { option_copied result
        ≡ better_eligible now agent.now free.now shares.now (option_copied best.entry)
        framework.entry.now }
    ensures share { IfSome (option_copied result) (λ f. IsClientShare shares.now f.id f.role
        best_share.new) }
{
    let Some(other) = best else {
        if !may_be_offered(candidate, framework, now, agent, free) {
            return None;
        }
        *best_share = share_of(shares, candidate, framework, place);
        return Some(framework);
    };
    let share = share_of(shares, candidate, framework, place);
    let (id, role) = (framework.id, &framework.role);
    if comes_before(shares, id, role, &share, other.id, &other.role, best_share)
        && may_be_offered(candidate, framework, now, agent, free)
    {
        *best_share = share;
        return Some(framework);
    }
    best
}

/// The frameworks are in the order of their ids, so where all have the same role, none after one
/// that holds nothing stands before it. None of the first `first` is eligible.
fn best_of<'a>(
    shares: &Shares,
    frameworks: &'a [Framework],
    are_of_one_role: bool,
    candidates: &[Candidate],
    first: usize,
    now: u32,
    agent: &AgentName,
    free: &Resources,
) -> Option<&'a Framework>
    requires ordered { are_ordered frameworks.now ≡ true }
    requires role { IsTrue are_of_one_role → AreOfOneRole frameworks.now }
    requires first { NoneEligible now agent.now free.now (take first frameworks.now) }
    requires candidates { AreCandidates shares.now frameworks.now candidates.now }
    ensures { option_copied result ≡ fold (better_eligible now agent.now free.now shares.now) None
        frameworks.entry.now }
{
    let mut best = None;
    let mut share = ClientShare::nothing();
    for place in first..frameworks.len() {
        let (framework, candidate) = (&frameworks[place], candidates.get(place));
        best = better_eligible(
            shares, best, &mut share, framework, candidate, place, now, agent, free,
        );
        if are_of_one_role && best.is_some() && share.is_nothing() {
            return best;
        }
    }
    best
}

/// Of each name that agents own they own some amount, and each role has some weight.
fn are_sound(shares: &Shares)
    ensures positive { ArePositive shares.now.totals }
    ensures weighed { AreWeighed shares.now.roles }
{
    let _totals = shares.totals().rows();
    let _roles = shares.roles();
}

fn picked_of(
    shares: &Shares,
    frameworks: &Frameworks,
    candidates: &[Candidate],
    first: usize,
    now: u32,
    agent: &AgentName,
    free: &Resources,
) -> Option<FrameworkId>
    requires candidates { AreCandidates shares.now frameworks.now candidates.now }
    requires first { NoneEligible now agent.now free.now (take first frameworks.now) }
    ensures { result ≡ picked now agent.now free.now shares.now frameworks.now }
{
    let are_of_one_role = frameworks.are_of_one_role();
    let all = frameworks.as_slice();
    let framework = best_of(
        shares,
        all,
        are_of_one_role,
        candidates,
        first,
        now,
        agent,
        free,
    )?;
    Some(framework.id)
}

/// The framework that stands least of those to which what is free on an agent may
/// be offered at this moment: the one that `drf_pick::pick` picks of these clients, without a list
/// of them. To none of the first frameworks, `first` of them, it may. It takes no memory.
pub fn picked(
    shares: &Shares,
    frameworks: &Frameworks,
    candidates: &[Candidate],
    first: usize,
    now: u32,
    agent: &AgentName,
    free: &Resources,
) -> Option<FrameworkId>
    requires candidates { AreCandidates shares.now frameworks.now candidates.now }
    requires first { NoneEligible now agent.now free.now (take first frameworks.now) }
    ensures picked { result ≡ picked now agent.now free.now shares.now frameworks.now }
    ensures pick { IsPick shares.now (eligible_clients now agent.now free.now frameworks.now)
        result }
{
    are_sound(shares);
    picked_of(shares, frameworks, candidates, first, now, agent, free)
}
