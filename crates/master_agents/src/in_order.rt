//! The place of an agent among those in byte order of their names.

ghost use Rattle.std.specs.Prelude.{◌≡◌, ◌≤◌, true, false, length};
ghost use Rattle.std.specs.List.Sorted.{IsPartitionPoint};
ghost use Rattle.names_core.specs.Names.{bytes_before};
ghost use Rattle.roster.specs.Places.{place_of};
ghost use Rattle.master_agents.specs.Configs.{are_ordered};
ghost use Rattle.master_agents.specs.Joined.{side_names};

use names_core::AgentName;
use roster::RosterEntry;

/// How many agents have names before this one.
fn count_before(entries: &[RosterEntry], name: &AgentName) -> usize
    ensures bound { result ≤ length entries.now }
    ensures point { are_ordered (side_names entries.now) ≡ true
        → IsPartitionPoint (λ s. bytes_before s.name name.now ≡ true)
        (λ s. bytes_before s.name name.now ≡ false) entries.now result }
{
    entries.partition_point(
        |entry: &RosterEntry| -> bool
            ensures { result ≡ bytes_before entry.now.name name.entry.now }
        { entry.name().is_before(name) },
    )
}

/// The place of the agent of a name, if there is one. It visits few of the agents.
pub fn place_in(entries: &[RosterEntry], name: &AgentName) -> Option<usize>
    requires { are_ordered (side_names entries.now) ≡ true }
    ensures { result ≡ place_of name.now entries.now }
{
    let place = count_before(entries, name);
    if place >= entries.len() {
        return None;
    }
    if entries[place].name().is(name) {
        Some(place)
    } else {
        None
    }
}
