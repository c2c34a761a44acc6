//! Look-ups.

ghost use Rattle.std.specs.Prelude.{◌≡◌, ◌≤◌, true, length, option_map, IsTrue};
ghost use Rattle.std.specs.List.{position};
ghost use Rattle.names_core.specs.Ids.{same};
ghost use Rattle.master_state.specs.Frameworks.{are_ordered, is_at, place_of, with_id, AreOfOneRole, HaveRole};
ghost use Rattle.master_state.specs.OpenStreams.{open_stream};
ghost use Rattle.master_state.specs.LastRound.{clients_of};
ghost use Rattle.cluster_model.specs.Masters.{put_framework};
ghost use Rattle.messages.specs.declared.framework.Framework as model;

use messages::Framework;
use names_core::{FrameworkId, RoleName, StreamId};

/// How many of the first frameworks are before an id, found by halving.
pub fn place_in(frameworks: &[Framework], id: FrameworkId) -> usize
    requires { are_ordered frameworks.now ≡ true }
    ensures place { result ≡ place_of id frameworks.now }
    ensures within { result ≤ length frameworks.now }
{
    frameworks.partition_point(|framework| framework.id < id)
}

/// Whether this framework's id is at a place.
pub fn is_at(frameworks: &[Framework], place: usize, framework: &Framework) -> bool
    ensures { result ≡ is_at place framework.now frameworks.now }
{
    place < frameworks.len() && frameworks[place].id == framework.id
}

fn has_id(framework: &Framework, id: FrameworkId) -> bool
    ensures { result ≡ same framework.now.id id }
{
    framework.id == id
}

/// The place of the framework of this id, found by halving.
pub fn place_with(frameworks: &[Framework], id: FrameworkId) -> Option<usize>
    requires { are_ordered frameworks.now ≡ true }
    ensures { result ≡ position (λ f. same f.id id) frameworks.now }
{
    let place = place_in(frameworks, id);
    if place < frameworks.len() && has_id(&frameworks[place], id) {
        return Some(place);
    }
    None
}

/// The stream of the framework of this id, where it is known.
pub fn stream_in(frameworks: &[Framework], id: FrameworkId) -> Option<Option<StreamId>>
    requires { are_ordered frameworks.now ≡ true }
    ensures { result ≡ option_map (λ f. f.stream) (with_id id frameworks.now) }
{
    let place = place_with(frameworks, id)?;
    Some(frameworks[place].stream)
}

/// The open stream of the framework of this id, if it has one.
pub fn open_stream(frameworks: &[Framework], id: FrameworkId) -> Option<StreamId>
    requires { are_ordered frameworks.now ≡ true }
    ensures { result ≡ open_stream id frameworks.now }
{
    stream_in(frameworks, id)?
}

/// Whether the first one has this role, if there is one.
pub fn begin_with_role(frameworks: &[Framework], role: &RoleName) -> bool
    ensures { IsTrue result → AreOfOneRole frameworks.now → HaveRole role.now frameworks.now }
{
    frameworks.is_empty() || frameworks[0].role.is(role)
}

fn is_client(framework: &Framework, id: FrameworkId, role: &RoleName) -> bool
    ensures id { IsTrue result → framework.now.id ≡ id }
    ensures role { IsTrue result → framework.now.role ≡ role.now }
{
    has_id(framework, id) && framework.role.is(role)
}

/// Whether the framework at the place of this id has it, and this role.
pub fn has_client(frameworks: &[Framework], place: usize, id: FrameworkId, role: &RoleName) -> bool
    requires place { place ≡ place_of id frameworks.now }
    requires ordered { are_ordered frameworks.now ≡ true }
    ensures { (f : model.Framework) → IsTrue result → f.id ≡ id → f.role ≡ role.now
        → clients_of (put_framework f frameworks.now) ≡ clients_of frameworks.now }
{
    place < frameworks.len() && is_client(&frameworks[place], id, role)
}
