//! The command line.

ghost use Rattle.std.specs.Prelude.{◌≡◌, List, [], ◌∷◌, Some, codes, IfOk, IfErr, IfSome, IfNone};
ghost use Rattle.command_line.specs.declared.command.Action.{Action as Asked};
ghost use Rattle.clap.specs.Words.{FailsBy, HasKind, Row, Text, app_of, fault_of, found_of, new_app, rows_of, subcommand_of, subcommand_rows_of};
ghost use Rattle.clap.specs.Walk.{texts};
ghost use Rattle.command_line.specs.Forms.{HasValues, IsForm, Use, serve_words};
ghost use Rattle.command_line.specs.Commands.{AsksFor, IsAction, IsTaken, IsWantOfMemory, command_line, plain_commands};

use crate::options::{ServeOptions, serve_command, serve_options};
use clap::{ArgMatches, Command, Error};
use std::alloc::{AllocError, Global};

/// What the program is asked to do.
#[derive(Clone, Copy, Drop, PartialEq, Eq)]
pub enum Action<'a> {
    /// `calls`: answer the calls on standard input.
    Calls,
    /// `replay`: take the steps on standard input.
    Replay,
    /// `serve`: serve a cluster.
    Serve(ServeOptions<'a>),
}

/// The version, and the toolchain whose proofs it rests on. `tests/docs` compares it with that of
/// `rt version`.
const VERSION: &str = "1.0.0 (rattle-kit-13, logic dac8208d650f15bf)";

const ABOUT: &str =
    "A cluster manager by resource offers that speaks the Mesos scheduler HTTP API.";

const CALLS_ABOUT: &str =
    "Answers calls without agents: reads RecordIO frames of calls in JSON from standard input, and writes the frames of all events to standard output.";

const CALLS_HELP: &str =
    "Each call is a record: its size in bytes in decimal digits, a line feed, and a JSON object, as

  75
  {\"type\":\"SUBSCRIBE\",\"subscribe\":{\"framework_info\":{\"user\":\"u\",\"name\":\"n\"}}}

A record has at most 1048576 bytes. A record that is no call, or whose call is refused, is answered by an ERROR event.
The status is 0 where the input ends behind a record, 2 where a frame is wrong (F1 BadSize, F2 TooLong, F3 Cut), and 3 where
memory, the input or the output fails.";

const REPLAY_ABOUT: &str =
    "Replays a history of a cluster: reads the agents and then the steps, one JSON object a line, from standard input, and writes what comes of each step to standard output.";

const REPLAY_HELP: &str = "The first line says which agents there are, and what each owns:

  {\"agents\":{\"a1\":{\"cpus\":4,\"mem\":4096}}}

It has 1 to 256 agents, whose names have 1 to 64 ASCII letters, digits, `-`, `_` and `.`. An agent owns up to 8 resources: each has a name
of 1 to 64 bytes without control characters, spaces, `/` and `\\`, and an amount that is a whole number from 1 to 1099511627776 (2^40).

Roles may have weights: a role of weight 2 is due twice as much as one of weight 1, which each role has that isn't named. Up to 4096
roles have a whole number from 1 to 1000:

  {\"agents\":{\"a1\":{\"cpus\":4,\"mem\":4096}},\"weights\":{\"prod\":2}}

Each other line is a step. Its members, of which only `stream` of a send and `total` of a start may lack:

  {\"step\":\"send\",\"stream\":\"S1-1\",\"call\":CALL}      a framework sends a call of the Mesos scheduler API
  {\"step\":\"deliver\",\"mail\":2}                       the master takes the call or mail of this number
  {\"step\":\"allocate\"}                               the master makes a round of offers
  {\"step\":\"tick\",\"now\":15}                          so many seconds have passed since the start, from 0 to
                                                    .. 4294967295 and no fewer than before
  {\"step\":\"lose\",\"agent\":\"a1\"}                      the master takes the agent for lost
  {\"step\":\"hangup\",\"stream\":\"S1-1\"}                 a stream of events is closed
  {\"step\":\"take\",\"stream\":\"S1-1\"}                   a framework takes the next event of a stream
  {\"step\":\"prepare\",\"agent\":\"a1\",\"mail\":1}          the agent drafts what it does at the mail of this number,
  {\"step\":\"prepare\",\"agent\":\"a1\",\"cause\":\"start\",\"total\":{\"cpus\":8,\"mem\":8192}}
                                                    .. when it has come up, with no less than it owned,
  {\"step\":\"prepare\",\"agent\":\"a1\",\"cause\":\"again\"}   .. at its next turn,
  {\"step\":\"prepare\",\"agent\":\"a1\",\"launch\":\"L1-1\",\"state\":\"TASK_RUNNING\"}
                                                    .. at its task's new state (or TASK_FINISHED, TASK_FAILED)
  {\"step\":\"commit\",\"agent\":\"a1\"}                    the draft is the agent's record, and its mails are sent
  {\"step\":\"stop_agent\",\"agent\":\"a1\",\"keep\":\"after\"}  the agent stops and comes up over its draft's record (\"before\": without it)
  {\"step\":\"stop_master\"}                            the master stops, and a new one begins the next run

Calls and mails have numbers from 1 on, in the order in which they are sent, and each can be delivered again and again. A line of
spaces, tabs and carriage returns alone is passed over.

For the opening, number 0, and each step a line says `NUMBER ok`, or why it was refused, as `7 C1 NoSuchMail`. Behind it stands what
the step brought out: `> STREAM EVENT`, `x STREAM` for a stream that was closed, `# NUMBER RECEIVER MAIL` (of a call its type), and
`< STREAM EVENT` for an event that was taken. At the end stands what each agent owns, what of it is offered, what its live tasks
hold, and its tasks; then the number of entries of the history.

Here the agent greets the master, and is seen to be there:

  {\"agents\":{\"a1\":{\"cpus\":4,\"mem\":4096}}}
  {\"step\":\"prepare\",\"agent\":\"a1\",\"mail\":1}
  {\"step\":\"commit\",\"agent\":\"a1\"}
  {\"step\":\"deliver\",\"mail\":2}

The status is 0 where the input ends, 2 where a line is wrong (X1 NotAStep, X2 BadCall, X3 BadConfig, with the line's number before
it), and 3 where memory, the input or the output fails.";

fn calls_command<'a>(alloc: Global) -> Command<'a>
    ensures { app_of result ≡ new_app (codes "calls") }
{
    Command::new(alloc, "calls")
        .about(CALLS_ABOUT)
        .after_help(CALLS_HELP)
}

fn replay_command<'a>(alloc: Global) -> Command<'a>
    ensures { app_of result ≡ new_app (codes "replay") }
{
    Command::new(alloc, "replay")
        .about(REPLAY_ABOUT)
        .after_help(REPLAY_HELP)
}

/// The program with its commands without arguments.
fn plain_commands<'a>(alloc: Global) -> Result<Command<'a>, AllocError>
    ensures { IfOk result (λ app. app_of app ≡ plain_commands) }
{
    let top = Command::new(alloc, "mesos_node")
        .about(ABOUT)
        .version(VERSION)
        .subcommand_required(true);
    let with_calls = top.subcommand(calls_command(alloc))?;
    with_calls.subcommand(replay_command(alloc))
}

fn app<'a>(alloc: Global) -> Result<Command<'a>, AllocError>
    ensures { IfOk result (λ app. app_of app ≡ command_line) }
{
    let plain = plain_commands(alloc)?;
    let serve = serve_command(alloc)?;
    plain.subcommand(serve)
}

fn action_named<'a>(name: &str, found: &ArgMatches<'a>) -> Option<Action<'a>>
    ensures named { IfSome result (IsAction name.now (rows_of (found_of found.now))) }
    ensures none { IfNone result ((a : Asked) → IsAction name.now (rows_of (found_of found.now)) a
        → ⊥) }
{
    match name {
        "calls" => Some(Action::Calls),
        "replay" => Some(Action::Replay),
        "serve" => Some(Action::Serve(serve_options(found)?)),
        _ => None,
    }
}

/// What was found to be asked for.
fn action_in<'a>(matches: &ArgMatches<'a>) -> Option<Action<'a>>
    ensures found { IfSome result (λ action. (name : Text) × (rows : List Row)
        × (subcommand_rows_of matches.now ≡ Some (name, rows)) × IsAction name rows action) }
    ensures none { IfNone result ((name : Text) (rows : List Row) (a : Asked)
        → subcommand_rows_of matches.now ≡ Some (name, rows) → IsAction name rows a → ⊥) }
{
    let (name, found) = matches.subcommand()?;
    action_named(name, found)
}

/// What the words of a command line are, the program's name first.
fn matches_of<'a>(alloc: Global, words: &'a [&'a str]) -> Result<ArgMatches<'a>, Error>
    ensures matches { IfOk result (λ matches. subcommand_rows_of matches
        ≡ subcommand_of command_line (texts words.entry.now)) }
    ensures faults { FailsBy (fault_of command_line (texts words.entry.now)) result }
{
    let app = app(alloc)?;
    app.try_get_matches_from(words)
}

/// Words that the table of commands takes ask for an action.
pub fn taken_words_ask()
    ensures { (words : List Text) → IsTaken words → (a : Asked) × AsksFor words a }
{}

/// Words of the table's form are taken: a command's name, and then its options in any order, each
/// at most once, with values that aren't empty and don't begin with `-`; and they have these values.
pub fn words_of_the_form_are_taken()
    ensures calls { (program : Text) → IsTaken (program ∷ codes "calls" ∷ []) }
    ensures replay { (program : Text) → IsTaken (program ∷ codes "replay" ∷ []) }
    ensures serve { (program : Text) (uses : List Use) → IsForm uses
        → IsTaken (serve_words program uses) }
    ensures values { (program : Text) (uses : List Use) → IsForm uses
        → HasValues (serve_words program uses) uses }
{}

/// The action that the words of a command line ask for, the program's name first.
/// A fault says what is wrong with them, or holds the help or the version that they ask for.
pub fn command_of<'a>(alloc: Global, words: &'a [&'a str]) -> Result<Action<'a>, Error>
    ensures asked { IfOk result (AsksFor (texts words.entry.now)) }
    ensures taken { IfOk result (λ _. IsTaken (texts words.entry.now)) }
    ensures refused { IfErr result (HasKind (fault_of command_line (texts words.entry.now))) }
    ensures memory_alone { IsTaken (texts words.entry.now) → IfErr result IsWantOfMemory }
{
    let matches = matches_of(alloc, words)?;
    match action_in(&matches) {
        Some(action) => Ok(action),
        None => unreachable!(),
    }
}
