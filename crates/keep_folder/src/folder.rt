//! A folder of stores.

ghost use Rattle.std.specs.Prelude.{◌≡◌, true, IfOk, IfErr, IfSome, IfNone, IsSomeAnd, OnOk};
ghost use Rattle.sqlite.specs.State.{HasCleanDisk};
ghost use Rattle.sqlite.specs.Files.{file_state};
ghost use Rattle.quantity.specs.Rows.{covers};
ghost use Rattle.cluster_agents.specs.Records.{AreRecordsOf};
ghost use Rattle.cluster_model.specs.Agents as agents;
ghost use Rattle.cluster_model.specs.Openings.{GoodOpening};
ghost use Rattle.keep_folder.specs.Given.{GivesRun};
ghost use Rattle.keep_folder.specs.Refusals.{IsFileRefusal, IsFolderRefusal, IsRecordRefusal, IsStoreRefusal};
ghost use Rattle.keep_folder.specs.declared.folder_fault.FolderFault.TheVariants.{NoCluster};

use crate::cabinet::{FolderLock, OpenFiles, RecordFile};
use crate::folder_fault::{FolderFault, StoreHint};
use crate::stores::{FilePlace, Request, load_at};
use agent_core::Record;
use cluster_agents::good_opening;
use keep_store::KeepFault;
use master_agents::{ConfiguredAgent, ConfiguredAgents};
use names_core::Run;
use std::alloc::{AllocError, Global};
use std::{fs, io};
use values::Plain;

/// What a folder keeps of a cluster.
#[derive(Drop)]
pub struct Folder<'a> {
    /// The master's run, which was taken for it.
    pub run: Run,
    /// The agents' records, one for each.
    pub records: Vec<Record>,
    /// Where they are kept, in the order of the configuration.
    pub files: Vec<RecordFile<'a>>,
    /// What keeps other servers from the folder, as long as it is there.
    pub lock: FolderLock,
}

/// The next run of the master, from the store of its runs, which stays open.
fn take_number(
    alloc: Global,
    store: &mut OpenFiles,
    place: &FilePlace<'_>,
) -> Result<Run, KeepFault>
    ensures { IfOk result (λ run. IsSomeAnd store.new.store
        (λ keeper. HasCleanDisk (file_state keeper) → GivesRun (file_state keeper) run)) }
{
    let given = store.ask(place, alloc, Request::NextRun)?;
    given.run.ok_or(KeepFault::Damaged)
}

/// The next run of the master, from the store of its runs, which stays open, and whose write-ahead
/// file is copied into its database file.
fn take_run(
    rt: &HostRuntime,
    store: &mut OpenFiles,
    place: &FilePlace<'_>,
) -> Result<Run, KeepFault>
    ensures { IfOk result (λ run. IsSomeAnd store.new.store
        (λ keeper. HasCleanDisk (file_state keeper) → GivesRun (file_state keeper) run)) }
{
    let run = take_number(rt.alloc(), store, place)?;
    store.fold(rt)?;
    Ok(run)
}

/// Why the store of the runs of a folder failed, as far as the fault and the folder tell.
fn hint_at(rt: &HostRuntime, folder: &str, fault: &KeepFault) -> StoreHint {
    match StoreHint::of(fault) {
        StoreHint::Nothing => {}
        hint => return hint,
    }
    match fs::metadata(rt, folder) {
        Ok(found) if found.is_dir() => StoreHint::Nothing,
        Ok(_) => StoreHint::NoFolder,
        Err(error) if error.kind() == io::ErrorKind::NotFound => StoreHint::NoSuchFolder,
        Err(_) => StoreHint::Nothing,
    }
}

/// The next run of the master, from the store of its runs in a folder, which stays open.
fn next_run(rt: &HostRuntime, folder: &str, store: &mut OpenFiles) -> Result<Run, FolderFault>
    ensures run { IfOk result (λ run. IsSomeAnd store.new.store
        (λ keeper. HasCleanDisk (file_state keeper) → GivesRun (file_state keeper) run)) }
    ensures refused { IfErr result IsStoreRefusal }
{
    let path = format!(in rt.alloc(); "{folder}/master.db")?;
    let place = FilePlace::new(rt, path);
    match take_run(rt, store, &place) {
        Ok(run) => Ok(run),
        Err(fault) => {
            let path = place.into_path();
            let hint = hint_at(rt, folder, &fault);
            Err(FolderFault::Store { path, fault, hint })
        }
    }
}

/// The record of an agent: the one that was found, which its total covers, or else a fresh one.
/// Z1 where the one that was found has more than its total, K4 for want of memory.
fn record_of(
    alloc: Global,
    agent: &ConfiguredAgent,
    found: Option<Record>,
) -> Result<Record, FolderFault>
    ensures found { IfOk result (λ kept. IfSome found (λ d. kept ≡ d)) }
    ensures fresh { IfOk result
        (λ kept. IfNone found (kept ≡ agents.fresh agent.now.name agent.now.total)) }
    ensures total { IfOk result
        (λ kept. IfSome found (λ d. covers agent.now.total d.total ≡ true)) }
    ensures refused { IfErr result (IsRecordRefusal agent.now found) }
{
    let Some(record) = found else {
        return Ok(Record::fresh(alloc, agent.name.copy()?, agent.total.copy()?));
    };
    if !agent.total.covers(&record.parts().total) {
        return Err(FolderFault::TotalDiffers {
            agent: String::from_str(alloc, agent.name.as_text())?,
        });
    }
    Ok(record)
}

/// The file of an agent's record, and what is configured that the agent owns.
fn file_at<'a>(
    agent: &ConfiguredAgent,
    was_empty: bool,
    place: FilePlace<'a>,
) -> Result<RecordFile<'a>, AllocError> {
    let name = agent.name.copy()?;
    let total = agent.total.copy()?;
    Ok(RecordFile::new(name, total, was_empty, place))
}

/// The record of an agent, of which this was found, with the file where it is kept.
fn kept_at<'a>(
    alloc: Global,
    agent: &ConfiguredAgent,
    found: Option<Record>,
    place: FilePlace<'a>,
) -> Result<(Record, RecordFile<'a>), FolderFault>
    ensures { IfErr result (IsFileRefusal agent.now) }
{
    let file = file_at(agent, found.is_none(), place)?;
    match record_of(alloc, agent, found) {
        Ok(record) => Ok((record, file)),
        Err(fault) => Err(fault),
    }
}

/// The record of an agent, with the file where it is kept.
fn open_agent<'a>(
    rt: &'a HostRuntime,
    folder: &str,
    agent: &ConfiguredAgent,
) -> Result<(Record, RecordFile<'a>), FolderFault>
    ensures { IfErr result (IsFileRefusal agent.now) }
{
    let name = agent.name.as_text();
    let path = format!(in rt.alloc(); "{folder}/agent-{name}.db")?;
    let place = FilePlace::new(rt, path);
    match load_at(&place, rt.alloc()) {
        Ok(loaded) => kept_at(rt.alloc(), agent, loaded.record, place),
        Err(fault) => {
            let path = place.into_path();
            let hint = StoreHint::of(&fault);
            Err(FolderFault::Store { path, fault, hint })
        }
    }
}

/// Refuses records that are those of no one cluster of these agents in this run.
fn check_opening(config: &ConfiguredAgents, records: &[Record], run: Run) -> Result<(), FolderFault>
    ensures good { OnOk result (GoodOpening run records.now) }
    ensures records { OnOk result (AreRecordsOf config.now records.now) }
    ensures refused { IfErr result (λ fault. (fault ≡ NoCluster)
        × ((GoodOpening run records.now × AreRecordsOf config.now records.now) → ⊥)) }
{
    if good_opening(config, records, run) {
        Ok(())
    } else {
        Err(FolderFault::NoCluster)
    }
}

/// The agents' records, and the files where they are kept.
#[derive(Drop)]
struct OpenAgents<'a> {
    records: Vec<Record>,
    files: Vec<RecordFile<'a>>,
}

/// Adds the record of an agent and its file to those of others.
fn add_agent<'a>(
    rt: &'a HostRuntime,
    folder: &str,
    agent: &ConfiguredAgent,
    opened: &mut OpenAgents<'a>,
) -> Result<(), FolderFault>
    ensures { IfErr result (IsFileRefusal agent.now) }
{
    opened.records.reserve(1)?;
    opened.files.reserve(1)?;
    let (record, file) = open_agent(rt, folder, agent)?;
    opened.records.push_reserved(record);
    opened.files.push_reserved(file);
    Ok(())
}

/// Adds the records of all agents and their files where there are none yet.
fn add_agents<'a>(
    rt: &'a HostRuntime,
    folder: &str,
    config: &ConfiguredAgents,
    run: Run,
    opened: &mut OpenAgents<'a>,
) -> Result<(), FolderFault>
    ensures good { OnOk result (GoodOpening run opened.new.records.items) }
    ensures records { OnOk result (AreRecordsOf config.now opened.new.records.items) }
    ensures refused { IfErr result (IsFolderRefusal config.now) }
{
    for agent in config.agents() {
        add_agent(rt, folder, agent, opened)?;
    }
    check_opening(config, opened.records.as_slice(), run)
}

/// The records of all agents and their files.
fn open_agents<'a>(
    rt: &'a HostRuntime,
    folder: &str,
    config: &ConfiguredAgents,
    run: Run,
) -> Result<OpenAgents<'a>, FolderFault>
    ensures good { IfOk result (λ opened. GoodOpening run opened.records.items) }
    ensures records { IfOk result (λ opened. AreRecordsOf config.now opened.records.items) }
    ensures refused { IfErr result (IsFolderRefusal config.now) }
{
    let mut opened = OpenAgents {
        records: Vec::new(rt.alloc()),
        files: Vec::new(rt.alloc()),
    };
    let added = add_agents(rt, folder, config, run, &mut opened);
    added.and(Ok(opened))
}

/// Opens the stores of a folder, or makes those that lack: takes the master's next run, and reads
/// the agents' records, a fresh one where there is none. The write-ahead file of each is copied
/// into its database file, and cut to its header of 41 bytes. The store of runs stays open, and so
/// locked: as long as what is returned is there, K1 is the answer to every other server that opens
/// the folder. The folder itself is to be there. Refusals come in the order: the store of runs, each agent's store
/// and its total (Z1) in the order of their names, and then K2 where the records are those of no
/// cluster.
pub fn open_folder<'a>(
    rt: &'a HostRuntime,
    folder: &str,
    config: &ConfiguredAgents,
) -> Result<Folder<'a>, FolderFault>
    ensures run { IfOk result (λ opened. IsSomeAnd opened.lock.runs.store
        (λ keeper. HasCleanDisk (file_state keeper) → GivesRun (file_state keeper) opened.run)) }
    ensures good { IfOk result (λ opened. GoodOpening opened.run opened.records.items) }
    ensures records { IfOk result (λ opened. AreRecordsOf config.now opened.records.items) }
    ensures refused { IfErr result (IsFolderRefusal config.now) }
{
    let mut runs = OpenFiles::new();
    let run = next_run(rt, folder, &mut runs)?;
    let lock = FolderLock::new(runs);
    match open_agents(rt, folder, config, run) {
        Ok(OpenAgents { records, files }) => Ok(Folder {
            run,
            records,
            files,
            lock,
        }),
        Err(fault) => Err(fault),
    }
}
