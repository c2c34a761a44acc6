//! What its type keeps of every record.

ghost use Rattle.std.specs.Prelude.{◌≡◌, true};
ghost use Rattle.std.specs.List.{AllByRecursion as Each};
ghost use Rattle.cluster_laws.specs.Premises.{AreRecorded, IsRecorded};
ghost use Rattle.stream_core.specs.Updates.{are_updates};

use agent_core::Record;
use messages::RecordedTask;
use values::Shared;

fn tasks_are_recorded(tasks: &[Shared<RecordedTask>])
    ensures { Each (λ t. are_updates t.updates.states t.updates.acknowledged ≡ true) tasks.now }
{
    for task in tasks {
        let _states = task.updates.states();
    }
}

/// A record is as every value of its type is.
fn is_recorded(durable: &Record)
    ensures { IsRecorded durable.now }
{
    let parts = durable.parts();
    tasks_are_recorded(parts.tasks.as_slice());
}

/// All records are as every value of their type is.
pub fn records_are_recorded(records: &[Record])
    ensures { AreRecorded records.now }
{
    for durable in records {
        is_recorded(durable);
    }
}
