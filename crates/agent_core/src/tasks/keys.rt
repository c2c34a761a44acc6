//! The order of launch keys.

ghost use Rattle.std.specs.Prelude.{◌≡◌, ◌≤◌, length};
ghost use Rattle.std.specs.List.{take_while};
ghost use Rattle.names_core.specs.Ids as ids;

use messages::RecordedTask;
use names_core::LaunchKey;
use values::Shared;

/// How many of the first tasks have keys before this one.
pub fn count_before(tasks: &[Shared<RecordedTask>], key: LaunchKey) -> usize
    ensures count { result ≡ length (take_while (λ t. ids.before t.job.key key) tasks.now) }
    ensures within { result ≤ length tasks.now }
{
    tasks.iter().take_while(|task| task.job.key < key).count()
}
