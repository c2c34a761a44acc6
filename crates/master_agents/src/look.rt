//! Look-ups in the roster and in the book.

ghost use Rattle.std.specs.Prelude.{◌≡◌, ◌&&◌, ◌==◌, false, not, suc, bytes_eq};
ghost use Rattle.std.specs.List.{find, list_any};
ghost use Rattle.names_core.specs.Ids.{same};
ghost use Rattle.cluster_model.specs.Masters.{has_returned, may_have_numbers};
ghost use Rattle.offer_tables.specs.Found.{place};
ghost use Rattle.roster.specs.Places.{value_at};
ghost use Rattle.master_agents.specs.Looks.{is_received_last, is_session};

use messages::Booked;
use names_core::{AgentName, FrameworkId, LaunchKey, TaskName};
use roster::RosterEntry;

/// Whether the agent at a place has an open session.
pub fn is_open_in(entries: &[RosterEntry], place: usize) -> bool
    ensures { result ≡ value_at place (λ s. s.is_open) false entries.now }
{
    if place >= entries.len() {
        return false;
    }
    entries[place].is_open()
}

/// The open session of the agent at a place; 0 where none is open, and past the end.
pub fn session_in(entries: &[RosterEntry], place: usize) -> u32
    ensures { result ≡ value_at place (λ s. s.session) 0 entries.now }
{
    if place >= entries.len() {
        return 0;
    }
    entries[place].session()
}

fn is_session(entry: &RosterEntry, session: u32) -> bool
    ensures { result ≡ is_session session entry.now }
{
    entry.is_open() && session == entry.session()
}

/// Whether this is the open session of the agent at a place.
pub fn is_session_in(entries: &[RosterEntry], place: usize, session: u32) -> bool
    ensures { result ≡ value_at place (is_session session) false entries.now }
{
    if place >= entries.len() {
        return false;
    }
    is_session(&entries[place], session)
}

/// Whether so many command numbers are left in the session of the
/// agent of a name, where there is one.
pub fn may_have_numbers(entries: &[RosterEntry], name: &AgentName, count: u64) -> bool
    ensures { result ≡ may_have_numbers count (find (λ s. bytes_eq s.name name.now) entries.now) }
{
    for entry in entries {
        if entry.name().is(name) {
            return entry.has_numbers(count);
        }
    }
    true
}

/// Whether an agent hasn't opened a session in this run.
pub fn is_any_awaited(entries: &[RosterEntry]) -> bool
    ensures { result ≡ list_any (λ s. not (has_returned s)) entries.now }
{
    for entry in entries {
        if !entry.has_returned() {
            return true;
        }
    }
    false
}

/// Whether the agent of this name hasn't opened a session in this run.
pub fn is_one_awaited(entries: &[RosterEntry], name: &AgentName) -> bool
    ensures { result ≡ list_any (λ s. bytes_eq s.name name.now && not (has_returned s))
        entries.now }
{
    for entry in entries {
        if entry.name().is(name) && !entry.has_returned() {
            return true;
        }
    }
    false
}

/// Whether update `k` of a task is the last one that was received.
fn is_last(task: &Booked, k: u32) -> bool
    ensures { result ≡ (task.now.received == suc k) }
{
    task.received > 0 && task.received - 1 == k
}

fn is_key(task: &Booked, key: LaunchKey) -> bool
    ensures { result ≡ same task.now.job.key key }
{
    task.job.key == key
}

fn is_framework(task: &Booked, framework: FrameworkId) -> bool
    ensures { result ≡ same task.now.job.framework framework }
{
    task.job.framework == framework
}

/// Whether this task on an agent is a framework's of this name and key, on this agent, and `k` is the
/// last of its updates that was received.
pub fn is_received_last(
    task: &Booked,
    on: &AgentName,
    framework: FrameworkId,
    agent: &AgentName,
    name: &TaskName,
    key: LaunchKey,
    k: u32,
) -> bool
    ensures { result ≡ is_received_last framework agent.now name.now key k (place on.now task.now) }
{
    is_key(task, key)
        && is_framework(task, framework)
        && task.job.name.is(name)
        && on.is(agent)
        && is_last(task, k)
}
