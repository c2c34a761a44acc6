//! The agents that a text says, with the weights of roles.

ghost use Rattle.std.specs.Prelude.{MatchOption};
ghost use Rattle.step_text.specs.Agents.{IsLine, IsNoLine, Says};

use crate::agents::fault::AgentsFault;
use crate::{Config, LineFault, read_config};
use std::alloc::Global;

/// The text of one line, whose end may lack.
pub(crate) fn only_line(text: &[u8]) -> Option<&[u8]>
    ensures { MatchOption result (IsNoLine text.now) (λ line. IsLine text.now line.now) }
{
    let line = match text.split_last() {
        Some((b'\n', line)) => line,
        _ => text,
    };
    if line.contains(&b'\n') {
        return None;
    }
    Some(line)
}

/// The agents that a text says, and the weights of roles: one line, whose line feed may lack, and
/// which is a configuration as the replayer reads it, with 1 to 256 agents. `X3 BadConfig` where it
/// isn't one line, and where its line is no configuration; `C9 OutOfMemory` may come before that is
/// known.
pub fn agents_in(alloc: Global, text: &[u8]) -> Result<Config, AgentsFault>
    ensures { Says text.now result }
{
    let Some(line) = only_line(text) else {
        return Err(AgentsFault::Lines);
    };
    match read_config(alloc, line) {
        Ok(config) => Ok(config),
        Err(LineFault::OutOfMemory) => Err(AgentsFault::Memory),
        Err(LineFault::Refused(_)) => Err(AgentsFault::Config),
    }
}
