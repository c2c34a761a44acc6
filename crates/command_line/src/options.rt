//! The command `serve` and its options.

ghost use Rattle.std.specs.Prelude.{◌≡◌, ℕ, Bool, option_map, IfOk, IfSome, IfNone};
ghost use Rattle.command_line.specs.declared.options.ServeOptions.{ServeOptions as Options};
ghost use Rattle.clap.specs.Values.{bool_text};
ghost use Rattle.clap.specs.Words.{app_of, first_of, found_of, rows_of, rule_of};
ghost use Rattle.command_line.specs.Options as options;

use clap::builder::ValueParser;
use clap::{Arg, ArgAction, ArgMatches, Command};
use std::alloc::{AllocError, Global};

/// What a cluster is served with.
#[derive(Clone, Copy, Drop, PartialEq, Eq)]
pub struct ServeOptions<'a> {
    /// The port, from 1 to 65,535.
    pub port: u16,
    /// The path of the file that says which agents there are.
    pub agents: &'a str,
    /// The path of the folder of the records.
    pub state: &'a str,
    /// So many seconds lie between two rounds of offers, from 1 to 3,600.
    pub interval: u64,
    /// An offer that was left unanswered for so many seconds, from 0 to 86,400, is declined for as
    /// many; with 0 none is.
    pub offer_seconds: u32,
    /// So many seconds a task runs, from 0 to 86,400; with 0 until it is killed.
    pub task_seconds: u64,
    /// So many connections are accepted; with 0 there is no limit.
    pub connections: u64,
    /// After so many seconds without a byte a connection is at the end of its input, from 0 to
    /// 86,400; with 0 it waits for ever.
    pub idle_seconds: u64,
    /// So many connections are served at once, from 0 to 8,192, of which a quarter are no streams;
    /// with 0 it is 64, all of which may be streams.
    pub workers: u32,
    /// The server ends once it has so many MiB of memory, from 0 to 1,048,576; with 0 it doesn't.
    pub memory: u64,
    /// Whether the server goes on where memory or a thread is refused for a connection.
    pub keep_serving: bool,
}

const SERVE_ABOUT: &str =
    "Serves a cluster: frameworks speak to its master at http://127.0.0.1:PORT/api/v1/scheduler, and its agents run tasks by simulated executors.";

const SERVE_HELP: &str = "FILE is one line that says which agents there are, and what each owns:

  {\"agents\":{\"a1\":{\"cpus\":4,\"mem\":4096}}}

It has 1 to 256 agents, whose names have 1 to 64 ASCII letters, digits, `-`, `_` and `.`. An agent owns up to 8 resources: each has a name
of 1 to 64 bytes without control characters, spaces, `/` and `\\`, and an amount that is a whole number from 1 to 1099511627776 (2^40).

Roles may have weights: a role of weight 2 is due twice as much as one of weight 1, which each role has that isn't named. Up to 4096
roles have a whole number from 1 to 1000:

  {\"agents\":{\"a1\":{\"cpus\":4,\"mem\":4096}},\"weights\":{\"prod\":2}}

Of a name that is given twice the last one counts, and an agent may own nothing; both are noted on standard error at the start. Where
FILE is refused, the line behind the refusal names the place. `jq -c . FILE` makes one line of several.

No command of a task is run: a task is a timer, and its executor is simulated.

DIR is a folder that is there. Each agent keeps its record in `agent-NAME.db` in it, and the master the number of its run in
`master.db`; both are SQLite stores, each with a log beside it (`agent-NAME.db-wal`, `master.db-wal`) that is folded into it at each
start and after at most 1000 saves. Where sqlite3 reads a store it has a third file while it does (`-shm`). For a backup copy all
files of the folder while no server uses it, or each store by the `.backup` of sqlite3 then. A limit on the size of files
(`ulimit -f`) ends the process by its signal, unless that is ignored where it is started.

Started again on the same folder, the agents come up over their records, with their tasks, and frameworks resubscribe by their ids.
One server uses a folder at a time: `master.db` is locked from before its first read until the server ends, and a second server ends
at once (K1 Store). Each agent's store is locked from before the agent's first step until its activity ends. Where it keeps another
record then than it was loaded with, that agent takes no step (K2 Damaged), and the server ends or goes on without it, as below.

The master makes a round of offers each `--interval` seconds. With `--offer-seconds` N an offer that its framework has left
unanswered for N seconds is declined for it, and what it had isn't offered to that framework again for N seconds: so one that
doesn't answer doesn't hold all that is free. The offer isn't rescinded: an ACCEPT that names it later is answered as one of an
offer that is gone. A task runs at its agent's next turn (TASK_RUNNING), and ends by
itself `--task-seconds` later (TASK_FINISHED); with 0 it runs until it is killed. Updates are sent again until they are
acknowledged.

At most 64 connections are served at once, and the stream of each subscribed framework holds one; another connection waits until
one of them ends. So have at most 63 frameworks, or no call is answered. With `--workers` N at most N are served at once, and at most
N - N / 4 of them (the quarter rounded down) may be streams: a SUBSCRIBE over that is answered 503 (H10 NoStreamLeft), and whoever has
a stream can always call. 4096 frameworks take `--workers 5462`; each connection is a thread of its own.

A HEARTBEAT goes out on each stream every 15 seconds, rounded up to a multiple of `--interval`. A framework whose connection is gone
is noticed when a write to it fails, no later than at its second HEARTBEAT from then on: with `--interval` 1 after at most some 30
seconds, and with one over 15 after at most twice `--interval`. Its offers come back then.

A connection from which no byte came for `--idle-seconds` is at the end of its input: between requests it ends without a word, within
one its request is refused (H1 BadHead, H6 BadBody). So it is where a head takes ten times as long in all. The stream of a framework
isn't read, and stays; a client that doesn't take a response or an event within 30 seconds is hung up.

Of eight bodies at most over 64 KiB are read at once. Another one waits for its turn as long as a connection may be without a byte,
and its request is refused then (H6 BadBody), as it is where the rest of it takes ten times as long in all.

A record that can't be saved, as on a full disk, is tried again each second: that is told on standard error once when it begins and
once when it is over. Where its store can't be opened again either, or a thread or memory is refused, the server ends: it says why,
answers what it is answering, ends the streams and the connections that wait, and is gone within two seconds of its last answer. With
`--keep-serving` a refused thread, or want of memory for a connection, doesn't end it: a connection without a thread is closed
unanswered, and the next one waits a moment. That is told once a minute, and so is a connection that the system can't make, with
which it always goes on. Nor does a store that can't be opened again: its agent alone is down, and tries again each second, told once
as above, while the others, their tasks and all streams go on; what is launched on it meanwhile waits. Once the store opens, the record
that it keeps is the agent's. Where that is neither the record before the save nor the one to be saved (K2 Damaged), the agent stays
down until the server is started again, and that is told once.

The history of a cluster is kept whole, in memory. With `--memory` MIB the server ends once it has so many MiB: it says so, and its
status is 3. Started again, as a supervisor does, it goes on from its records.

With `--conns` N no more than N connections are accepted, and when all have ended each agent is written with its tasks, as
`replay` does at its end.

  mesos_node serve --port 5050 --agents agents.json --state state

The status is 0 where all connections have ended, 2 where the command line, FILE (X3 BadConfig) or a record's total (Z1 TotalDiffers)
is wrong, and 3 where a store (K1 to K4), FILE or the port (Z2 DeviceFault), a thread (H9 NoThread) or memory (H8 OutOfMemory) fails, or
`--memory` is reached.";

/// An option that takes a value.
fn option<'a>(alloc: Global, name: &'a str, value: &'a str, help: &'a str) -> Arg<'a>
    ensures { rule_of result ≡ options.option name.entry.now }
{
    Arg::new(alloc, name)
        .long(name)
        .value_name(value)
        .help(help)
}

/// An option that takes a whole number, from the least to the most.
fn number_option<'a>(alloc: Global, name: &'a str, help: &'a str, least: u64, most: u64) -> Arg<'a>
    ensures { rule_of result ≡ options.number_in least most (options.option name.entry.now) }
{
    option(alloc, name, "N", help).value_parser(ValueParser::unsigned(least, most))
}

/// An option without a value, which is given or not.
fn flag<'a>(alloc: Global, name: &'a str, help: &'a str) -> Arg<'a>
    ensures { rule_of result ≡ options.flag name.entry.now }
{
    Arg::new(alloc, name)
        .long(name)
        .action(ArgAction::SetTrue)
        .help(help)
}

fn port<'a>(alloc: Global) -> Arg<'a>
    ensures { rule_of result ≡ options.port }
{
    number_option(
        alloc,
        "port",
        "the port on 127.0.0.1, from 1 to 65535",
        1,
        65_535,
    )
    .required(true)
}

fn agents<'a>(alloc: Global) -> Arg<'a>
    ensures { rule_of result ≡ options.agents }
{
    option(
        alloc,
        "agents",
        "FILE",
        "the file that says which agents there are",
    )
    .required(true)
}

fn state<'a>(alloc: Global) -> Arg<'a>
    ensures { rule_of result ≡ options.state }
{
    option(alloc, "state", "DIR", "the folder of the records").required(true)
}

fn interval<'a>(alloc: Global) -> Arg<'a>
    ensures { rule_of result ≡ options.interval }
{
    number_option(
        alloc,
        "interval",
        "seconds between two rounds of offers, from 1 to 3600",
        1,
        3_600,
    )
    .default_value("1")
}

fn offer_seconds<'a>(alloc: Global) -> Arg<'a>
    ensures { rule_of result ≡ options.offer_seconds }
{
    number_option(
        alloc,
        "offer-seconds",
        "seconds after which an unanswered offer is declined, from 0 to 86400; 0 is never",
        0,
        86_400,
    )
    .default_value("0")
}

fn task_seconds<'a>(alloc: Global) -> Arg<'a>
    ensures { rule_of result ≡ options.task_seconds }
{
    number_option(
        alloc,
        "task-seconds",
        "seconds that a task runs, from 0 to 86400; 0 is until it is killed",
        0,
        86_400,
    )
    .default_value("10")
}

fn connections<'a>(alloc: Global) -> Arg<'a>
    ensures { rule_of result ≡ options.connections }
{
    number_option(
        alloc,
        "conns",
        "connections that are accepted, from 0 to 18446744073709551615; 0 is no limit",
        0,
        u64::MAX,
    )
    .default_value("0")
}

fn idle_seconds<'a>(alloc: Global) -> Arg<'a>
    ensures { rule_of result ≡ options.idle_seconds }
{
    number_option(
        alloc,
        "idle-seconds",
        "seconds without a byte after which a connection ends, from 0 to 86400; 0 is never",
        0,
        86_400,
    )
    .default_value("75")
}

fn workers<'a>(alloc: Global) -> Arg<'a>
    ensures { rule_of result ≡ options.workers }
{
    number_option(
        alloc,
        "workers",
        "connections that are served at once, from 1 to 8192, a quarter of them kept for calls; 0 is 64, none kept",
        0,
        8_192,
    )
    .default_value("0")
}

fn memory<'a>(alloc: Global) -> Arg<'a>
    ensures { rule_of result ≡ options.memory }
{
    number_option(
        alloc,
        "memory",
        "MiB of resident memory at which the server ends, from 1 to 1048576; 0 is no limit",
        0,
        1_048_576,
    )
    .default_value("0")
}

fn keep_serving<'a>(alloc: Global) -> Arg<'a>
    ensures { rule_of result ≡ options.keep_serving }
{
    flag(
        alloc,
        "keep-serving",
        "a refused thread, want of memory for a connection, or an agent's store that fails doesn't end the server",
    )
}

/// With the options that are required.
fn with_required<'a>(alloc: Global, command: Command<'a>) -> Result<Command<'a>, AllocError>
    ensures { IfOk result (λ more. app_of more ≡ options.with_required (app_of command.entry)) }
{
    let with_port = command.arg(port(alloc))?;
    let with_agents = with_port.arg(agents(alloc))?;
    with_agents.arg(state(alloc))
}

/// With the options that aren't required.
fn with_optional<'a>(alloc: Global, command: Command<'a>) -> Result<Command<'a>, AllocError>
    ensures { IfOk result (λ more. app_of more ≡ options.with_optional (app_of command.entry)) }
{
    let with_interval = command.arg(interval(alloc))?;
    let with_offer_seconds = with_interval.arg(offer_seconds(alloc))?;
    let with_task_seconds = with_offer_seconds.arg(task_seconds(alloc))?;
    let with_connections = with_task_seconds.arg(connections(alloc))?;
    let with_idle_seconds = with_connections.arg(idle_seconds(alloc))?;
    let with_workers = with_idle_seconds.arg(workers(alloc))?;
    let with_memory = with_workers.arg(memory(alloc))?;
    with_memory.arg(keep_serving(alloc))
}

/// The command `serve` and its options.
pub(crate) fn serve_command<'a>(alloc: Global) -> Result<Command<'a>, AllocError>
    ensures { IfOk result (λ serve. app_of serve ≡ options.serve_command) }
{
    let serve = Command::new(alloc, "serve")
        .about(SERVE_ABOUT)
        .after_help(SERVE_HELP);
    with_optional(alloc, with_required(alloc, serve)?)
}

/// The text of an option.
fn text_in<'a>(found: &ArgMatches<'a>, name: &str) -> Option<&'a str>
    ensures { option_map (λ t. t.now) result ≡ first_of name.now (rows_of (found_of found.now)) }
{
    found.get_str(name)
}

/// The port of an option.
fn port_in(found: &ArgMatches, name: &str) -> Option<u16>
    ensures found { IfSome result (options.HasNumber 16 (rows_of (found_of found.now)) name.now) }
    ensures none { IfNone result ((n : ℕ)
        → options.HasNumber 16 (rows_of (found_of found.now)) name.now n → ⊥) }
{
    found.get_one::<u16>(name)
}

/// The number of an option that is no more than a `u32` holds.
fn count_in(found: &ArgMatches, name: &str) -> Option<u32>
    ensures found { IfSome result (options.HasNumber 32 (rows_of (found_of found.now)) name.now) }
    ensures none { IfNone result ((n : ℕ)
        → options.HasNumber 32 (rows_of (found_of found.now)) name.now n → ⊥) }
{
    found.get_one::<u32>(name)
}

/// The number of an option.
fn number_in(found: &ArgMatches, name: &str) -> Option<u64>
    ensures found { IfSome result (options.HasNumber 64 (rows_of (found_of found.now)) name.now) }
    ensures none { IfNone result ((n : ℕ)
        → options.HasNumber 64 (rows_of (found_of found.now)) name.now n → ⊥) }
{
    found.get_one::<u64>(name)
}

/// Whether a flag with this text is given.
fn flag_of(text: &str) -> Option<bool>
    ensures found { IfSome result (λ given. text.now ≡ bool_text given) }
    ensures none { IfNone result ((given : Bool) → text.now ≡ bool_text given → ⊥) }
{
    match text {
        "true" => Some(true),
        "false" => Some(false),
        _ => None,
    }
}

/// Whether a flag is given.
fn flag_in(found: &ArgMatches, name: &str) -> Option<bool>
    ensures found { IfSome result (options.HasFlag (rows_of (found_of found.now)) name.now) }
    ensures none { IfNone result ((given : Bool)
        → options.HasFlag (rows_of (found_of found.now)) name.now given → ⊥) }
{
    match text_in(found, name) {
        Some(text) => flag_of(text),
        None => None,
    }
}

/// What a cluster is served with, by the options that were found.
pub(crate) fn serve_options<'a>(found: &ArgMatches<'a>) -> Option<ServeOptions<'a>>
    ensures found { IfSome result (options.HasOptions (rows_of (found_of found.now))) }
    ensures none { IfNone result ((o : Options)
        → options.HasOptions (rows_of (found_of found.now)) o → ⊥) }
{
    Some(ServeOptions {
        port: port_in(found, "port")?,
        agents: text_in(found, "agents")?,
        state: text_in(found, "state")?,
        interval: number_in(found, "interval")?,
        offer_seconds: count_in(found, "offer-seconds")?,
        task_seconds: number_in(found, "task-seconds")?,
        connections: number_in(found, "conns")?,
        idle_seconds: number_in(found, "idle-seconds")?,
        workers: count_in(found, "workers")?,
        memory: number_in(found, "memory")?,
        keep_serving: flag_in(found, "keep-serving")?,
    })
}
