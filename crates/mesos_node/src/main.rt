//! The cluster manager's program; `mesos_node --help` says what it can do.
#![tactic(auto)]

ghost use Rattle.std.specs.Prelude.{IfOk};
ghost use Rattle.std.specs.Process.{exit_status};
ghost use Rattle.mesos_node.specs.Statuses.{IsStatus};

mod ends;
mod fault;
mod serve;
mod streams;
mod words;

use command_line::{Action, command_of};
use ends::print_fault;
use serve::run_serve;
use std::alloc::Global;
use std::env::Args;
use std::net::{Net, TcpListener, TcpStream};
use std::process::ExitCode;
use std::sync::Wait;
use std::thread::Threads;
use std::time::Clock;
use std::{env, io};
use streams::{run_calls, run_replay};
use words::{print_unread, print_word_fault};

fn words_of(alloc: Global, given: Args) -> io::Result<Vec<String>> {
    let mut words = Vec::new(alloc);
    for word in given {
        words.push(word)?;
    }
    Ok(words)
}

fn texts_of(alloc: Global, words: &[String]) -> io::Result<Vec<&str>> {
    let mut texts = Vec::new(alloc);
    for word in words {
        texts.push(word.as_str())?;
    }
    Ok(texts)
}

/// Does what the words name, or prints why they name nothing.
fn run_words<
    R: Net<Listener = TcpListener, Stream = TcpStream> + Threads + Wait + Clock + Eprint + Sync,
>(rt: &HostRuntime, threads: &R, words: &[&str]) -> io::Result<ExitCode>
    ensures { IfOk result (λ code. IsStatus (exit_status code)) }
{
    match command_of(rt.alloc(), words) {
        Ok(Action::Calls) => Ok(run_calls(rt, &mut rt.stdin(), &mut rt.stdout())),
        Ok(Action::Replay) => Ok(run_replay(rt, &mut rt.stdin(), &mut rt.stdout())),
        Ok(Action::Serve(options)) => Ok(run_serve(rt, threads, &options, &mut rt.stdout())),
        Err(fault) => print_word_fault(rt, &fault),
    }
}

/// Does what the words of the command line name.
fn run<R: Net<Listener = TcpListener, Stream = TcpStream> + Threads + Wait + Clock + Eprint + Sync>(
    rt: &HostRuntime,
    threads: &R,
) -> io::Result<ExitCode>
    ensures { IfOk result (λ code. IsStatus (exit_status code)) }
{
    let given = match env::args(rt) {
        Ok(given) => given,
        Err(fault) => return Ok(print_unread(rt, &fault)),
    };
    let words = words_of(rt.alloc(), given)?;
    let texts = texts_of(rt.alloc(), &words)?;
    run_words(rt, threads, &texts)
}

fn main(rt: HostRuntime) -> ExitCode {
    match run(&rt, &rt) {
        Ok(code) => code,
        Err(fault) => print_fault(&rt, &fault, false),
    }
}
