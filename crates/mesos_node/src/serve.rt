//! The command `serve`: a cluster that runs over a folder of records,
//! with what is printed on standard error, and the exit status.

ghost use Rattle.std.specs.Prelude.{◌≡◌, ◌∷◌, [], IfOk};
ghost use Rattle.std.specs.Io.KnownBytes.{Keeps};
ghost use Rattle.std.specs.Net.Addr.{ipv4_octets};
ghost use Rattle.std.specs.Net.Socket.{v4_ip, v4_port};
ghost use Rattle.std.specs.Process.{exit_status};
ghost use Rattle.cluster_agents.specs.Records.{AreRecordsOf};
ghost use Rattle.cluster_model.specs.Openings.{GoodOpening};
ghost use Rattle.mesos_node.specs.Statuses.{IsStatus, status_of_fault};
ghost use Rattle.mesos_node.specs.Ends.{AppendsTable, IsEndTable};
ghost use Rattle.mesos_node.specs.Refusals.{is_refusal};

use crate::ends::{FAILED, print_fault};
use crate::fault::ServeFault;
use cluster_channels::Queues;
use cluster_core::{Cluster, RecordedCluster};
use command_line::ServeOptions;
use frame_record::put;
use keep_folder::{Folder, open_folder};
use replay_core::end_table;
use serving::{MemoryLimit, Pace, read_recorded, serve_cluster};
use std::io::Write;
use std::marker::Brand;
use std::net::{Ipv4Addr, Net, SocketAddrV4, TcpListener, TcpStream};
use std::process::ExitCode;
use std::sync::Wait;
use std::sync::ledger::Blank;
use std::thread::Threads;
use std::time::Clock;
use step_text::{AgentsFile, Config, read_agents};

/// One part for each seat, and one for the desk.
const PARTS: u64 = 1 << 32;

/// Where a cluster is served: a port of 127.0.0.1, which no other machine reaches.
fn endpoint(port: u16) -> SocketAddrV4
    ensures address { ipv4_octets (v4_ip result) ≡ 127 ∷ 0 ∷ 0 ∷ 1 ∷ [] }
    ensures port { v4_port result ≡ port }
{
    SocketAddrV4::new(Ipv4Addr::new(127, 0, 0, 1), port)
}

/// How fast a cluster runs that is served with these options.
fn pace_of(options: &ServeOptions) -> Pace
    ensures { result ≡ record {
      interval = options.now.interval;
      offer_seconds = options.now.offer_seconds;
      task_seconds = options.now.task_seconds;
      connections = options.now.connections;
      idle_seconds = options.now.idle_seconds;
      workers = options.now.workers;
      keep_serving = options.now.keep_serving;
    } }
{
    Pace {
        interval: options.interval,
        offer_seconds: options.offer_seconds,
        task_seconds: options.task_seconds,
        connections: options.connections,
        idle_seconds: options.idle_seconds,
        workers: options.workers,
        keep_serving: options.keep_serving,
    }
}

/// Serves the cluster of a folder, and returns the table at its end.
fn serve_folder<
    R: Net<Listener = TcpListener, Stream = TcpStream> + Threads + Wait + Clock + Eprint + Sync,
>(
    rt: &HostRuntime,
    threads: &R,
    options: &ServeOptions,
    config: Config,
    folder: Folder,
    listener: &TcpListener,
) -> Result<Vec<u8>, ServeFault>
    requires good { GoodOpening folder.run folder.records.items }
    requires records { AreRecordsOf config.agents folder.records.items }
    ensures { IfOk result (λ text. IsEndTable text.items) }
{
    let Folder {
        run,
        records,
        files,
        lock: _lock,
    } = folder;
    let cluster = match Cluster::<Queues>::open(rt.alloc(), config, records, run) {
        Ok(cluster) => cluster,
        Err(_) => return Err(ServeFault::Memory),
    };
    let pace = pace_of(options);
    let blank = Blank::new(PARTS);
    let memory = MemoryLimit {
        rt,
        mebibytes: options.memory,
    };
    let alloc = rt.alloc();
    let recorded = RecordedCluster::new(cluster);
    let served = serve_cluster::<_, Brand, _>(
        threads, alloc, blank, recorded, files, listener, memory, pace,
    );
    match served {
        Ok(history) => {
            let look = |recorded: &RecordedCluster| end_table(alloc, recorded.cluster());
            Ok(read_recorded(history, look)?)
        }
        Err(fault) => Err(ServeFault::Serving(fault)),
    }
}

/// Prints on standard error what the writer of a file may not have meant.
fn print_notes(rt: &HostRuntime, path: &str, notes: &[String]) {
    for note in notes {
        let note = note.as_str();
        let _ = eprintln!(rt; "{path}: {note}");
    }
}

/// Prints on standard error which agents start fresh, in a run that isn't the folder's first: their
/// records may have been lost.
fn print_fresh(rt: &HostRuntime, path: &str, folder: &Folder) {
    if folder.run.number() == 1 {
        return;
    }
    for file in &folder.files {
        if let Some(agent) = file.fresh_agent() {
            let agent = agent.as_text();
            let _ = eprintln!(rt; "agent {agent} has no record in {path}, and starts fresh");
        }
    }
}

/// Serves the cluster of the folder and the agents that the options name, and returns the table at
/// its end. It prints on standard error what is noted on the file of the agents, which agents start
/// fresh, and where it serves, once it does.
fn serve<
    R: Net<Listener = TcpListener, Stream = TcpStream> + Threads + Wait + Clock + Eprint + Sync,
>(rt: &HostRuntime, threads: &R, options: &ServeOptions) -> Result<Vec<u8>, ServeFault>
    ensures { IfOk result (λ text. IsEndTable text.items) }
{
    let AgentsFile { config, notes } = read_agents(rt, options.agents)?;
    print_notes(rt, options.agents, &notes);
    let folder = open_folder(rt, options.state, &config.agents)?;
    print_fresh(rt, options.state, &folder);
    let port = options.port;
    let listener = match TcpListener::bind(threads, endpoint(port)) {
        Ok(listener) => listener,
        Err(error) => return Err(ServeFault::Port { port, error }),
    };
    let run = folder.run.number();
    let _ = eprintln!(rt; "run {run} serves at http://127.0.0.1:{port}/api/v1/scheduler");
    serve_folder(rt, threads, options, config, folder, &listener)
}

/// Prints on standard error why a cluster isn't served; why it isn't any more was printed when that
/// came.
fn print_serving_fault(rt: &HostRuntime, fault: &ServeFault) -> ExitCode
    ensures { exit_status result ≡ status_of_fault (is_refusal fault.now) }
{
    if let ServeFault::Serving(_) = fault {
        return ExitCode::from(FAILED);
    }
    print_fault(rt, fault, fault.is_refusal())
}

/// Serves a cluster until its connections have ended, and writes the table at its end: each agent
/// with its tasks, and the number of entries of the history. `threads` is the runtime too, by what
/// only `main` may do. The status is 0 at that end, 2 where the files of the agents or of the
/// records are refused (`X3 BadConfig`, `Z1 TotalDiffers`), and 3 where a store, the port, a
/// thread, the output or memory fails.
pub(crate) fn run_serve<
    R: Net<Listener = TcpListener, Stream = TcpStream> + Threads + Wait + Clock + Eprint + Sync,
    W: Write,
>(rt: &HostRuntime, threads: &R, options: &ServeOptions, writer: &mut W) -> ExitCode
    ensures status { IsStatus (exit_status result) }
    // At 0 the table at the end of a cluster is written, which is safe, and whose history is legal.
    ensures ended { exit_status result ≡ 0
        → AppendsTable (W.contents writer.old) (W.contents writer.new) }
    // At 2 nothing is written.
    ensures refused { exit_status result ≡ 2
        → Keeps (W.contents writer.old) (W.contents writer.new) }
{
    match serve(rt, threads, options) {
        Ok(table) => match put(writer, table.as_slice()) {
            Ok(()) => ExitCode::SUCCESS,
            Err(error) => print_serving_fault(rt, &ServeFault::Output(error)),
        },
        Err(fault) => print_serving_fault(rt, &fault),
    }
}
