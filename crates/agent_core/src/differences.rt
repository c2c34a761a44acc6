//! Where the tasks of two records differ.

ghost use Rattle.std.specs.Prelude.{◌≡◌, ◌↔◌, ◌≤◌, IsTrue, length};
ghost use Rattle.agent_core.specs.Prepared.{spliced};

use messages::RecordedTask;
use values::{Shared, are_same};

/// Whether tasks are others with their part between `from` and `to` replaced. It takes no memory.
pub fn is_spliced(
    tasks: &[Shared<RecordedTask>],
    from: usize,
    to: usize,
    others: &[Shared<RecordedTask>],
    part: &[Shared<RecordedTask>],
) -> bool
    requires ordered { from ≤ to }
    requires within { to ≤ length others.now }
    ensures { IsTrue result ↔ (tasks.now ≡ spliced from to others.now part.now) }
{
    if tasks.len() < from || tasks.len() - from < part.len() {
        return false;
    }
    let (front, behind) = tasks.split_at(from);
    let (middle, back) = behind.split_at(part.len());
    are_same(front, &others[..from]) && are_same(middle, part) && are_same(back, &others[to..])
}
