//! Records of agents.

ghost use Rattle.std.specs.Prelude.{◌≡◌, true, IfOk};
ghost use Rattle.cluster_model.specs.Agents as agents;
ghost use Rattle.agent_core.specs.Records.{is_behind, keys_rise, none_is_done, has_begun, is_record, rebuilt};

use crate::tasks::room_beside;
use messages::{RecordParts, RecordedTask};
use names_core::{AgentName, LaunchKey};
use quantity::Resources;
use std::alloc::{AllocError, Global};
use std::marker::Model;
use values::{Listed, Plain, Shared};

/// A record that an agent can have: launch keys rise, no task is done, run 0 is only with
/// session 0 and no tasks, and the live tasks fit the total. (That a task has at most 4,096
/// updates, a terminal one last, and acknowledges at most these holds of every `Updates`.)
#[derive(Clone, Debug, PartialEq)]
pub struct Record {
    parts: RecordParts,
}

// By hand, so that the proof of who drops one visits none of its parts.
impl Drop for Record {
    fn drop(self) {
        let Record { parts: _ } = self;
    }
}

impl Model for Record {
    ghost use Rattle.std.specs.Prelude.{◌≡◌, true};
    ghost use Rattle.messages.specs.declared.record.RecordParts.{RecordParts};
    ghost use Rattle.agent_core.specs.Records.{is_record};

    ghost Value = { RecordParts };

    ghost view = { λ r. r.parts };

    ghost invariant = { λ r. is_record r.parts ≡ true };

    ghost inverse = { λ d. record { parts = d } };
}

impl Plain for Record {
    ghost use Rattle.messages.specs.contracts.record.RecordPartsPlain.TheImpl.Laws.{decided-law as durable_decided};
    ghost use Rattle.std.proofs.Common.{rules};

    ghost cloned = { Prim.search rules };

    ghost decided = { Prim.search (rules, durable_decided) };
}

fn is_behind(last: Option<LaunchKey>, key: LaunchKey) -> bool
    ensures { result ≡ is_behind last key }
{
    match last {
        None => true,
        Some(last) => last < key,
    }
}

/// Whether launch keys rise.
pub fn keys_rise(tasks: &[Shared<RecordedTask>]) -> bool
    ensures { result ≡ keys_rise tasks.now }
{
    let mut last = None;
    for task in tasks {
        if !is_behind(last, task.job.key) {
            return false;
        }
        last = Some(task.job.key);
    }
    true
}

fn none_is_done(tasks: &[Shared<RecordedTask>]) -> bool
    ensures { result ≡ none_is_done tasks.now }
{
    tasks.iter().all(|task| !task.updates.done())
}

fn has_begun(durable: &RecordParts) -> bool
    ensures { result ≡ has_begun durable.now }
{
    durable.run != 0 || (durable.session == 0 && durable.tasks.len() == 0)
}

/// Whether an agent can have this record: its launch keys rise, no task is done,
/// run 0 is only with session 0 and no tasks, and the live tasks fit the total.
fn is_record(alloc: Global, durable: &RecordParts) -> Result<bool, AllocError>
    ensures { IfOk result (λ is. is ≡ is_record durable.now) }
{
    let tasks = durable.tasks.as_slice();
    if !keys_rise(tasks) || !none_is_done(tasks) || !has_begun(durable) {
        return Ok(false);
    }
    let nothing = Resources::new(alloc);
    let room = room_beside(alloc, &durable.total, &nothing, tasks)?;
    Ok(room.is_some())
}

impl Record {
    /// The record of an agent that owns a total and has never opened a session. It takes no memory.
    pub fn fresh(alloc: Global, name: AgentName, total: Resources) -> Record
        ensures { result ≡ agents.fresh name total }
    {
        Record {
            parts: RecordParts {
                name,
                total,
                session: 0,
                run: 0,
                tasks: Listed::new(alloc),
            },
        }
    }

    /// The record of these parts, or None where no agent can have it.
    pub fn of(alloc: Global, parts: RecordParts) -> Result<Option<Record>, AllocError>
        ensures { IfOk result (λ found. found ≡ rebuilt parts) }
    {
        if is_record(alloc, &parts)? {
            Ok(Some(Record { parts }))
        } else {
            Ok(None)
        }
    }

    /// The record of parts that are known to be those of one.
    pub(crate) fn make(parts: RecordParts) -> Record
        requires { is_record parts ≡ true }
        ensures { result ≡ parts }
    {
        Record { parts }
    }

    /// The parts. It takes no memory.
    pub fn parts(&self) -> &RecordParts
        ensures parts { result.now ≡ self.now }
        ensures recorded { is_record self.now ≡ true }
    {
        &self.parts
    }

    /// Returns the parts. It takes no memory.
    pub fn into_parts(self) -> RecordParts
        ensures parts { result ≡ self }
        ensures recorded { is_record self ≡ true }
    {
        let Record { parts } = self;
        parts
    }
}
