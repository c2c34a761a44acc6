//! Whether records are a good opening. No test takes memory.

ghost use Rattle.std.specs.Prelude.{◌≡◌, ◌↔◌, true, nat_lt, List, IsTrue, ℕ};
ghost use Rattle.std.specs.List.{AllByRecursion as Each, list_all, list_any};
ghost use Rattle.agent_core.specs.Records.{keys_rise};
ghost use Rattle.master_agents.specs.declared.config.ConfiguredAgent.{ConfiguredAgent as Configured};
ghost use Rattle.cluster_agents.specs.Openable.{KeysRise, are_good, are_records_of, is_before, is_record_of, is_task_before};
ghost use Rattle.cluster_agents.specs.Records.{AreRecordsOf};
ghost use Rattle.cluster_model.specs.Openings.{GoodOpening, RecordFits};
ghost use Rattle.messages.specs.declared.record.RecordParts.{RecordParts};

use crate::openings::apart::{are_keys_apart, are_names_apart};
use agent_core::Record;
use master_agents::{ConfiguredAgent, ConfiguredAgents};
use messages::RecordedTask;
use names_core::{OfferId, Run};
use quantity::covers_is_at_least;
use values::Shared;

/// What the type of a record keeps of it: its live tasks fit what its agent owns,
/// and its launch keys rise.
fn record_fits(durable: &Record)
    ensures fits { RecordFits durable.now }
    ensures rise { keys_rise durable.now.tasks ≡ true }
{
    covers_is_at_least();
    let _parts = durable.parts();
}

/// The same of all records.
fn records_fit(records: &[Record])
    ensures fit { Each RecordFits records.now }
    ensures rise { Each KeysRise records.now }
{
    for durable in records {
        record_fits(durable);
    }
}

fn are_offers_before(offers: &[OfferId], run: u16) -> bool
    ensures { result ≡ list_all (λ id. nat_lt id.run run) offers.now }
{
    offers.iter().all(|id| id.run() < run)
}

fn is_task_before(task: &RecordedTask, run: u16) -> bool
    ensures { result ≡ is_task_before run task.now }
{
    task.job.key.run() < run
        && task.job.framework.run() < run
        && are_offers_before(task.offers.as_slice(), run)
}

fn are_tasks_before(tasks: &[Shared<RecordedTask>], run: u16) -> bool
    ensures { result ≡ list_all (is_task_before run) tasks.now }
{
    tasks.iter().all(|task| is_task_before(task, run))
}

/// Whether every run in a record is before this one.
fn is_before(durable: &Record, run: u16) -> bool
    ensures { result ≡ is_before run durable.now }
{
    let parts = durable.parts();
    parts.run < u32::from(run) && are_tasks_before(parts.tasks.as_slice(), run)
}

/// Whether a record is of this agent, which is configured to own at least what the record says.
fn is_record_of(agent: &ConfiguredAgent, durable: &Record) -> bool
    ensures { result ≡ is_record_of agent.now durable.now }
{
    let parts = durable.parts();
    agent.name.is(&parts.name) && agent.total.covers(&parts.total)
}

/// Whether an agent has a record among these.
fn has_record(agent: &ConfiguredAgent, records: &[Record]) -> bool
    ensures { result ≡ list_any (λ d. is_record_of agent.now d) records.now }
{
    records.iter().any(|durable| is_record_of(agent, durable))
}

/// Whether a record is that of one of these agents.
fn has_agent(agents: &[ConfiguredAgent], durable: &Record) -> bool
    ensures { result ≡ list_any (λ a. is_record_of a durable.now) agents.now }
{
    agents.iter().any(|agent| is_record_of(agent, durable))
}

/// Whether each agent has a record among these.
fn have_records(agents: &[ConfiguredAgent], records: &[Record]) -> bool
    ensures { result ≡ list_all (λ a. list_any (λ d. is_record_of a d) records.now) agents.now }
{
    agents.iter().all(|agent| has_record(agent, records))
}

/// Whether each record is that of one of these agents.
fn have_agents(agents: &[ConfiguredAgent], records: &[Record]) -> bool
    ensures { result ≡ list_all (λ d. list_any (λ a. is_record_of a d) agents.now) records.now }
{
    records.iter().all(|durable| has_agent(agents, durable))
}

/// Whether each agent has a record among these, and each of them is that of one of the agents.
/// It visits each agent once for each record.
fn are_records_of(agents: &[ConfiguredAgent], records: &[Record]) -> bool
    ensures { result ≡ are_records_of agents.now records.now }
{
    have_records(agents, records) && have_agents(agents, records)
}

fn are_all_before(records: &[Record], run: u16) -> bool
    ensures { result ≡ list_all (is_before run) records.now }
{
    records.iter().all(|durable| is_before(durable, run))
}

/// The tests decide, of records that fit their totals and whose launch keys rise, whether they are
/// a good opening, and whether they are those of configured agents.
fn openings_are_decided()
    ensures good { (run : ℕ) (records : List RecordParts)
        → Each RecordFits records → Each KeysRise records → are_good run records ≡ true
        → GoodOpening run records }
    ensures agents { (agents : List Configured) (records : List RecordParts)
        → IsTrue (are_records_of agents records) ↔ AreRecordsOf agents records }
    ensures tests { (run : ℕ) (records : List RecordParts) → GoodOpening run records
        → are_good run records ≡ true }
{}

/// Whether a cluster of these agents may be opened over these records, in any order, in this run:
/// there is one record for each agent and no other, which the agent's total covers, no launch key
/// is in two, and every run in them is before this one. (That each record's live tasks fit its
/// total holds of every `Record`.) It takes no memory, and time in the square of the number of
/// records and in the number of their tasks times that of records.
pub fn good_opening(config: &ConfiguredAgents, records: &[Record], run: Run) -> bool
    ensures { IsTrue result ↔ (GoodOpening run records.now × AreRecordsOf config.now records.now) }
{
    openings_are_decided();
    records_fit(records);
    are_records_of(config.agents(), records)
        && are_names_apart(records)
        && are_keys_apart(records)
        && are_all_before(records, run.number())
}
