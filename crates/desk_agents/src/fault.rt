//! Why an activity ends, and why a turn of it stops.

ghost use Rattle.std.specs.Prelude.{◌≡◌};
ghost use Rattle.desk_agents.specs.Asked.{ends};
ghost use Rattle.desk_agents.specs.Stops.{found_of, mail_of, says_down, stop_of, unless_later};

use desk_core::ClusterFault;
use desk_lock::{OfficeFault, Waited, Wake};
use std::fmt::{Debug, Display};
use thiserror::Error;

/// What it is to an activity that its cabinet can't be opened again after a save that failed.
#[derive(Clone, Copy, Drop)]
pub enum CabinetFailures {
    /// It ends with the cabinet's fault, and finishes the office.
    Fatal,
    /// It opens the cabinet again each second; its agent alone is down meanwhile.
    Borne,
}

/// Why an activity ends before the office is finished.
#[derive(Debug, Drop, Error)]
#[error_bound(F: Debug + Display)]
pub enum ActivityFault<F> {
    /// The cabinet failed in a save, and couldn't be opened again; never where that is borne.
    #[error("{0}")]
    Cabinet(F),
    /// What the cabinet keeps is neither the record of the draft that
    /// was to be saved nor the agent's own.
    #[error("K2 Damaged")]
    Damaged,
}

/// Why a turn stops.
#[derive(Drop)]
pub(crate) enum Stop<F> {
    /// The rest is left for the next turn.
    Later,
    /// The office is finished, its history is another one, or it has no such agent.
    Ended,
    Failed(ActivityFault<F>),
}

/// Whether who is refused so ends: by O1 and C8.
pub(crate) fn ends(fault: &OfficeFault<ClusterFault>) -> bool
    ensures { result ≡ ends fault.now }
{
    matches!(
        fault,
        OfficeFault::ForeignPass(_) | OfficeFault::Core(ClusterFault::NoSuchAgent)
    )
}

/// How a turn stops where the office refuses.
pub(crate) fn stop_of<F>(fault: OfficeFault<ClusterFault>) -> Stop<F>
    ensures { result ≡ stop_of fault }
{
    if ends(&fault) {
        Stop::Ended
    } else {
        Stop::Later
    }
}

/// Whether an agent is down or has no draft, as a refusal of its step says: C3 and C5.
pub(crate) fn says_down(fault: &OfficeFault<ClusterFault>) -> bool
    ensures { result ≡ says_down fault.now }
{
    matches!(
        fault,
        OfficeFault::Core(ClusterFault::AgentDown | ClusterFault::NoDraft)
    )
}

/// What a wait found. A wait that finds nothing in its time leaves the rest for the next turn.
pub(crate) fn found<T, F>(
    waited: Result<Waited<T>, OfficeFault<ClusterFault>>,
) -> Result<T, Stop<F>>
    ensures { result ≡ found_of waited }
{
    match waited {
        Ok(Waited::Found(found)) => Ok(found),
        Ok(Waited::Elapsed) => Err(Stop::Later),
        Ok(Waited::Finished) => Err(Stop::Ended),
        Err(fault) => Err(stop_of(fault)),
    }
}

/// The mail that a wait found, or none until the next turn.
pub(crate) fn mail_found<F>(
    woken: Result<Wake, OfficeFault<ClusterFault>>,
) -> Result<Option<u64>, Stop<F>>
    ensures { result ≡ mail_of woken }
{
    match woken {
        Ok(Wake::Mail(number)) => Ok(Some(number)),
        Ok(Wake::Turn) => Ok(None),
        Ok(Wake::Finished) => Err(Stop::Ended),
        Err(fault) => Err(stop_of(fault)),
    }
}

/// What is left for the next turn stops nothing else.
pub(crate) fn unless_later<F>(stop: Stop<F>) -> Result<(), Stop<F>>
    ensures { result ≡ unless_later stop }
{
    match stop {
        Stop::Later => Ok(()),
        stop => Err(stop),
    }
}
