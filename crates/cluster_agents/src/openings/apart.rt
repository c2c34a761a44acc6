//! Whether each launch key, and each name, is in one record alone.

ghost use Rattle.std.specs.Prelude.{◌≡◌, true};
ghost use Rattle.agent_core.specs.Records.{keys_rise};
ghost use Rattle.cluster_agents.specs.Openable.{are_keys_apart, are_keys_new, are_names_apart, is_name_new, share_key};

use agent_core::Record;
use messages::RecordedTask;
use values::Shared;

/// Whether a launch key is in both of two lists of tasks, in which keys rise.
/// It visits each task at most once.
fn share_key(one: &[Shared<RecordedTask>], other: &[Shared<RecordedTask>]) -> bool
    requires one { keys_rise one.now ≡ true }
    requires other { keys_rise other.now ≡ true }
    ensures { result ≡ share_key one.now other.now }
{
    let (mut left, mut right) = (one, other);
    while let Some((task, tasks)) = left.split_first() {
        let Some((its, others)) = right.split_first() else {
            return false;
        };
        if task.job.key < its.job.key {
            left = tasks;
        } else if its.job.key < task.job.key {
            right = others;
        } else {
            return true;
        }
    }
    false
}

/// Whether no launch key of a record is in those after it.
fn are_keys_new(durable: &Record, behind: &[Record]) -> bool
    ensures { result ≡ are_keys_new durable.now.tasks behind.now }
{
    let tasks = durable.parts().tasks.as_slice();
    for other in behind {
        if share_key(tasks, other.parts().tasks.as_slice()) {
            return false;
        }
    }
    true
}

/// Whether no launch key is in two records. It visits each record once for each other one.
pub fn are_keys_apart(records: &[Record]) -> bool
    ensures { result ≡ are_keys_apart records.now }
{
    for i in 0..records.len() {
        if !are_keys_new(&records[i], &records[i + 1..]) {
            return false;
        }
    }
    true
}

/// Whether no record after it has the name of this one.
fn is_name_new(durable: &Record, behind: &[Record]) -> bool
    ensures { result ≡ is_name_new durable.now behind.now }
{
    let name = &durable.parts().name;
    behind.iter().all(|other| !other.parts().name.is(name))
}

/// Whether no two records have one name. It visits each record once for each other one.
pub fn are_names_apart(records: &[Record]) -> bool
    ensures { result ≡ are_names_apart records.now }
{
    for i in 0..records.len() {
        if !is_name_new(&records[i], &records[i + 1..]) {
            return false;
        }
    }
    true
}
