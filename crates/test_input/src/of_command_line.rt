use clap::error::ErrorKind;
use command_line::{Action, ServeOptions, command_of};
use std::alloc::Global;

const SERVE: [&str; 8] = [
    "mesos_node",
    "serve",
    "--port",
    "5050",
    "--agents",
    "agents.json",
    "--state=here",
    "--conns=3",
];

const SERVED: Action<'static> = Action::Serve(ServeOptions {
    port: 5050,
    agents: "agents.json",
    state: "here",
    interval: 1,
    offer_seconds: 0,
    task_seconds: 10,
    connections: 3,
    idle_seconds: 75,
    workers: 0,
    memory: 0,
    keep_serving: false,
});

const SERVE_SLOWLY: [&str; 16] = [
    "mesos_node",
    "serve",
    "--interval",
    "3600",
    "--offer-seconds=86400",
    "--task-seconds=0",
    "--state",
    "s",
    "--agents",
    "f",
    "--port=65535",
    "--idle-seconds=0",
    "--workers=8192",
    "--keep-serving",
    "--memory",
    "1048576",
];

const SERVED_SLOWLY: Action<'static> = Action::Serve(ServeOptions {
    port: 65_535,
    agents: "f",
    state: "s",
    interval: 3_600,
    offer_seconds: 86_400,
    task_seconds: 0,
    connections: 0,
    idle_seconds: 0,
    workers: 8_192,
    memory: 1_048_576,
    keep_serving: true,
});

fn asks_for<'a>(alloc: Global, words: &'a [&'a str], action: Action<'a>) -> bool {
    match command_of(alloc, words) {
        Ok(asked) => asked == action,
        Err(_) => false,
    }
}

/// Which kind of fault the words have; none where they ask for an action.
fn fault_of<'a>(alloc: Global, words: &'a [&'a str]) -> Option<ErrorKind> {
    match command_of(alloc, words) {
        Ok(_) => None,
        Err(fault) => Some(fault.kind()),
    }
}

/// What the words of each command ask for.
pub fn the_command_line_is_read(alloc: Global) -> bool {
    asks_for(alloc, &["mesos_node", "calls"], Action::Calls)
        && asks_for(alloc, &["mesos_node", "replay"], Action::Replay)
        && asks_for(alloc, &SERVE, SERVED)
        && asks_for(alloc, &SERVE_SLOWLY, SERVED_SLOWLY)
}

/// The port, interval and task seconds of `serve`, and whether they are in range.
const NUMBERS: [(&str, &str, &str, bool); 7] = [
    ("1", "1", "86400", true),
    ("0", "1", "0", false),
    ("65536", "1", "0", false),
    ("x", "1", "0", false),
    ("1", "0", "0", false),
    ("1", "3601", "0", false),
    ("1", "1", "86401", false),
];

fn fault_of_serve(alloc: Global, port: &str, interval: &str, seconds: &str) -> Option<ErrorKind> {
    let words = [
        "mesos_node",
        "serve",
        "--agents=f",
        "--state=s",
        "--port",
        port,
        "--interval",
        interval,
        "--task-seconds",
        seconds,
    ];
    fault_of(alloc, &words)
}

/// Numbers out of their ranges are refused.
pub fn numbers_have_their_ranges(alloc: Global) -> bool {
    for i in 0..NUMBERS.len() {
        let (port, interval, seconds, is_in_range) = NUMBERS[i];
        let fault = if is_in_range {
            None
        } else {
            Some(ErrorKind::ValueValidation)
        };
        if fault_of_serve(alloc, port, interval, seconds) != fault {
            return false;
        }
    }
    true
}

const HELP: [&str; 2] = ["mesos_node", "--help"];

const CALLS_HELP: [&str; 3] = ["mesos_node", "calls", "--help"];

const FLY: [&str; 2] = ["mesos_node", "fly"];

const CALLS_NOW: [&str; 3] = ["mesos_node", "calls", "now"];

const NO_PORT: [&str; 4] = ["mesos_node", "serve", "--agents=f", "--state=s"];

/// Words that ask for no action are refused with the fault that they have.
pub fn words_are_refused(alloc: Global) -> bool {
    fault_of(alloc, &HELP) == Some(ErrorKind::DisplayHelp)
        && fault_of(alloc, &CALLS_HELP) == Some(ErrorKind::DisplayHelp)
        && fault_of(alloc, &FLY) == Some(ErrorKind::InvalidSubcommand)
        && fault_of(alloc, &CALLS_NOW) == Some(ErrorKind::UnknownArgument)
        && fault_of(alloc, &NO_PORT) == Some(ErrorKind::MissingRequiredArgument)
        && fault_of(alloc, &["mesos_node"]) == Some(ErrorKind::MissingSubcommand)
}
