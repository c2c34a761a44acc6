//! The file of the agents, read, with what is to be said of it.

ghost use Rattle.std.specs.Prelude.{◌≡◌, IfErr, IfOk};
ghost use Rattle.step_text.specs.Files.{IsRead, SaysInFile};
ghost use Rattle.step_text.specs.declared.agents.fault.AgentsFault.TheVariants.{Memory};

use crate::Config;
use crate::agents::agents::{agents_in, only_line};
use crate::agents::fault::AgentsFault;
use crate::agents::notes::notes_on;
use crate::agents::places::place_in;
use std::alloc::{AllocError, Global};
use std::{fmt, fs};

/// What a file says of the agents.
#[derive(Drop)]
pub struct AgentsFile {
    pub config: Config,
    /// What its writer may not have meant, a sentence each.
    pub notes: Vec<String>,
}

/// Why a file says no agents, and where in it.
#[derive(Drop)]
pub struct RefusedFile {
    pub fault: AgentsFault,
    /// The file's path, and where in it what isn't as it is to be; None where memory for it ran
    /// out, and where there is no such place.
    pub place: Option<String>,
}

impl RefusedFile {
    /// A refusal that has no place.
    fn of(fault: AgentsFault) -> RefusedFile
        ensures { result.fault ≡ fault }
    {
        RefusedFile { fault, place: None }
    }
}

impl fmt::Display for RefusedFile {
    fn fmt<W: fmt::Write>(&self, f: &mut fmt::Formatter<W>) -> fmt::Result {
        let fault = &self.fault;
        write!(f, "{fault}")?;
        match &self.place {
            Some(place) => {
                let place = place.as_str();
                write!(f, "\n{place}")
            }
            None => Ok(()),
        }
    }
}

/// How a file of several lines is made one.
fn lines_place(alloc: Global, path: &str, text: &[u8]) -> Result<Option<String>, AllocError> {
    let count = text.iter().filter(|b| **b == b'\n').count();
    let how = format!(in alloc; "`jq -c . {path}` writes its JSON as one line")?;
    Ok(Some(format!(in alloc; "{path}: {count} line feeds are in it; {how}")?))
}

/// Where in a file of one line this isn't as a configuration is to be.
fn config_place(alloc: Global, path: &str, line: &[u8]) -> Result<Option<String>, AllocError> {
    match place_in(alloc, line)? {
        Some(place) => Ok(Some(format!(in alloc; "{path}: {place}")?)),
        None => Ok(None),
    }
}

/// Where in a file what is refused is.
fn place_of(
    alloc: Global,
    path: &str,
    text: &[u8],
    fault: &AgentsFault,
) -> Result<Option<String>, AllocError> {
    match fault {
        AgentsFault::Lines => lines_place(alloc, path, text),
        AgentsFault::Config => config_place(alloc, path, only_line(text).unwrap_or(text)),
        AgentsFault::File(_) | AgentsFault::Memory => Ok(None),
    }
}

/// A configuration with the notes on the text that says it.
fn with_notes(alloc: Global, text: &[u8], config: Config) -> Result<AgentsFile, RefusedFile>
    ensures noted { IfOk result (λ file. file.config ≡ config) }
    ensures refused { IfErr result (λ refused. refused.fault ≡ Memory) }
{
    match notes_on(alloc, text, &config) {
        Ok(notes) => Ok(AgentsFile { config, notes }),
        Err(_) => Err(RefusedFile::of(AgentsFault::Memory)),
    }
}

/// The agents and weights that a text of the file at this path says, with notes, or why it says
/// none, with the place.
fn said_by(alloc: Global, path: &str, text: &[u8]) -> Result<AgentsFile, RefusedFile>
    ensures { SaysInFile text.now result }
{
    match agents_in(alloc, text) {
        Ok(config) => with_notes(alloc, text, config),
        Err(fault) => {
            let place = place_of(alloc, path, text, &fault).unwrap_or(None);
            Err(RefusedFile { fault, place })
        }
    }
}

/// The agents and weights that the text of the file at this path says (see `agents_in`), with
/// notes on what its writer may not have meant; `Z2 DeviceFault` where the file can't be read.
/// Which text a file has no clause says.
pub fn read_agents(rt: &HostRuntime, path: &str) -> Result<AgentsFile, RefusedFile>
    ensures { IsRead result }
{
    match fs::read(rt, path) {
        Ok(text) => said_by(rt.alloc(), path, text.as_slice()),
        Err(error) => Err(RefusedFile::of(AgentsFault::File(error))),
    }
}
