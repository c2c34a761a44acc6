//! The tasks of a Report.

ghost use Rattle.std.specs.Prelude.{◌≡◌, List, [], fold, IfOk, OnOk};
ghost use Rattle.std.specs.BTreeMap.{is_at};
ghost use Rattle.std.specs.List.{list_any};
ghost use Rattle.messages.specs.declared.task.Booked.{Booked};
ghost use Rattle.master_core.specs.Reported.{frameworks_of, id_cmp, keys_of, with_framework, with_key};
ghost use Rattle.names_core.specs.Ids.{Numbered, same};

use messages::Booked;
use names_core::{FrameworkId, LaunchKey};
use std::alloc::{AllocError, Global};
use std::collections::BTreeSet;
use std::marker::Model;
use values::Listed;

/// The tasks of a Report. Their launch keys and their frameworks are found in logarithmic time.
#[derive(Drop)]
pub struct Reported {
    tasks: Listed<Booked>,
    keys: BTreeSet<LaunchKey>,
    frameworks: BTreeSet<FrameworkId>,
}

impl Model for Reported {
    ghost use Rattle.std.specs.Prelude.{◌≡◌, List};
    ghost use Rattle.messages.specs.declared.task.Booked.{Booked};
    ghost use Rattle.master_core.specs.Reported.{frameworks_of, keys_of};

    ghost Value = { List Booked };

    ghost view = { λ r. r.tasks };

    ghost invariant = { λ r. (r.keys.keys ≡ keys_of r.tasks)
        × (r.frameworks.keys ≡ frameworks_of r.tasks) };
}

fn insert_keys(keys: &mut BTreeSet<LaunchKey>, tasks: &[Booked]) -> Result<(), AllocError>
    ensures { OnOk result (keys.new.keys ≡ fold with_key keys.old.keys tasks.now) }
{
    for task in tasks {
        keys.insert(task.job.key)?;
    }
    Ok(())
}

fn insert_frameworks(
    frameworks: &mut BTreeSet<FrameworkId>,
    tasks: &[Booked],
) -> Result<(), AllocError>
    ensures { OnOk result (frameworks.new.keys
        ≡ fold with_framework frameworks.old.keys tasks.now) }
{
    for task in tasks {
        frameworks.insert(task.job.framework)?;
    }
    Ok(())
}

/// A set of the ids of tasks has those that tasks have.
fn ids_are_found()
    ensures keys { (key : Numbered) (tasks : List Booked)
        → list_any (is_at (id_cmp key)) (keys_of tasks) ≡ list_any (λ t. same t.job.key key) tasks }
    ensures frameworks { (framework : Numbered) (tasks : List Booked)
        → list_any (is_at (id_cmp framework)) (frameworks_of tasks)
        ≡ list_any (λ t. same t.job.framework framework) tasks }
{}

impl Reported {
    /// No task. It takes no memory.
    pub fn none(alloc: Global) -> Reported
        ensures { result ≡ [] }
    {
        Reported {
            tasks: Listed::new(alloc),
            keys: BTreeSet::new(alloc),
            frameworks: BTreeSet::new(alloc),
        }
    }

    pub fn of(alloc: Global, tasks: Listed<Booked>) -> Result<Reported, AllocError>
        ensures { IfOk result (λ r. r ≡ tasks) }
    {
        let mut keys = BTreeSet::new(alloc);
        insert_keys(&mut keys, tasks.as_slice())?;
        let mut frameworks = BTreeSet::new(alloc);
        insert_frameworks(&mut frameworks, tasks.as_slice())?;
        Ok(Reported {
            tasks,
            keys,
            frameworks,
        })
    }

    pub fn into_tasks(self) -> Listed<Booked>
        ensures { result ≡ self }
    {
        let Reported {
            tasks,
            keys: _,
            frameworks: _,
        } = self;
        tasks
    }

    /// Whether a task of this launch key is reported.
    pub fn has_key(&self, key: LaunchKey) -> bool
        ensures { result ≡ list_any (λ t. same t.job.key key) self.now }
    {
        ids_are_found();
        self.keys.contains(&key)
    }

    /// Whether a task of this framework is reported.
    pub fn has_tasks_of(&self, framework: FrameworkId) -> bool
        ensures { result ≡ list_any (λ t. same t.job.framework framework) self.now }
    {
        ids_are_found();
        self.frameworks.contains(&framework)
    }
}
